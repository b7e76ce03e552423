//! What the harts of an assembled program begin with.
#![tactic(auto)]

mod hart;
pub mod laws;
mod registers;

pub use asm_capabilities::Reach;
pub use hart::{ARGUMENT, HartPlaces, LINK, OpenHart, STACK, Stack, open_hart};
pub use registers::{Registers, no_registers};
