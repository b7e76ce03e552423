//! What the program `cheri_explore` does: answers one question, or reports why it cannot.
#![tactic(auto)]

mod alike;
mod answers;
mod faults;
mod listing;
mod merging;
mod program;
mod progress;
mod questions;
mod ranges;
mod sampling;
mod threads;

pub use faults::{Fault, OwnFault};
pub use program::perform;
pub use program_io::report_fault;
pub use progress::{Counted, TerminalProgress};
