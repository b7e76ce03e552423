//! What places of assembly are once everything has its address: addresses, targets, capabilities.
#![tactic(auto)]

mod capabilities;
mod places;

pub use asm_capabilities::Reach;
pub use asm_layout::{Chunk, ChunkKind};
pub use asm_symbols::{Definition, Location, Meaning, Value};
pub use asm_tokens::AsmFaultKind;
pub use capabilities::Objects;
pub use places::Places;
