//! Runs in orders drawn by chance: a machine that begins each run from its opening state without
//! copying memory, and says how the run ended.
#![tactic(auto)]

mod memory;
mod runner;

pub use memory::RunMemory;
pub use runner::{Run, RunEnd, Runner};
