//! What the program `cheri_asm` does: assembles files, and prints a listing or a map, or reports
//! why it failed.
#![tactic(auto)]

mod answers;
mod faults;
mod program;
mod texts;

pub use faults::{Fault, OwnFault};
pub use program::perform;
pub use program_io::report_fault;
