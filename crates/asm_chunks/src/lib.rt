//! The chunks of a program while its files are read: what each file puts into each section.
#![tactic(auto)]

mod chunks;
mod fault;
mod growth;
mod order;
mod sections;

pub use asm_layout::{Chunk, ChunkKind};
pub use asm_names::SectionKind;
pub use chunks::{Chunks, new_chunks};
pub use fault::ChunkFault;
pub use growth::{MAX_CHUNK, MAX_CODE_CHUNK};
pub use order::section_order;
