//! What the program `cheri_sim` does: runs one command, or reports why it failed.
#![tactic(auto)]

mod answers;
mod ended;
mod faults;
mod laws;
mod program;
mod races;
mod runs;

pub use faults::{Fault, OwnFault};
pub use program::perform;
pub use program_io::report_fault;
pub use races::look_often;
