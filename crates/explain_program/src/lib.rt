//! What the program `cheri_explain` does: explains one run, or reports why it failed.
#![tactic(auto)]

mod explaining;
mod faults;
mod mapped;
mod program;

pub use faults::{Fault, OwnFault};
pub use program::perform;
pub use program_io::report_fault;
