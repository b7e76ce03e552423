//! What each instruction of CHERI-RISC-V asks for, its sources read before anything is written.
#![tactic(auto)]

mod actions;
mod integers;

pub use actions::{Action, instr_action};
pub use integers::{extended, immediate, upper_immediate};
