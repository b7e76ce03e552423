//! How a program ends: its faults with their lines and exit statuses, and the end of its answer.
#![tactic(auto)]

mod ending;
mod fault;

pub use ending::{finish, report_fault};
pub use fault::{Fault, ProgramFault};
