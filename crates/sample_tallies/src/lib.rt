//! What many runs in drawn orders gave, counted exactly.
#![tactic(auto)]

mod changed;
mod claims;
mod counting;
mod ends;
pub mod laws;
mod numbering;
mod order;
mod same;
mod seen;
mod tally;
mod traps;

pub use claims::Claims;
pub use counting::count_runs;
pub use seen::{Seen, TrapPlace, TrapSeen};
pub use tally::Tally;
