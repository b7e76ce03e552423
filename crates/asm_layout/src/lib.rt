//! Where the chunks of an assembled program begin, in the code store and in memory.
#![tactic(auto)]

mod chunk;
mod layout;
mod placement;

pub use chunk::{Chunk, ChunkKind};
pub use layout::{Layout, lay_out, memory_size};
pub use placement::{next_multiple, padding};
