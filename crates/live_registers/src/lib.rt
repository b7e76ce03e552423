//! Registers that no way from here reads before it writes them, or that only serve to compute such
//! ones. They make no difference, so a search may set them to null.
#![tactic(auto)]

mod guess;
pub mod laws;
mod live;
mod operands;
mod register_set;
mod scan;

pub use live::LiveRegisters;
pub use register_set::RegisterSet;
