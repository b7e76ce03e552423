//! The search for a state in which a condition holds, and what is said of it.
#![tactic(auto, unfolding(crate::proofs::Unfold::texts))]

mod absent;
mod finding;
mod reduced;
mod reducing;
mod replaying;
mod running;
mod shown;
mod trimming;

pub use finding::{Told, find, opened};
pub use reduced::{reduced_line, reduced_version};
pub use reducing::find_state;
pub use replaying::replayed;
