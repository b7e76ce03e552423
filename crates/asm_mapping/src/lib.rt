//! The lines of the map of an assembled program.
#![tactic(auto)]

mod code;
mod mapping;
mod memory;

pub use asm_maps::MapLine;
pub use mapping::{Mapped, map_lines};
