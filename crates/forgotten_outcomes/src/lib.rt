//! The outcomes of an image as rows of values, where each hart forgets the registers that don't
//! matter: states that differ in nothing else are one.
#![tactic(auto)]

mod answers;
mod searching;
mod told;

pub use answers::{Manner, show_states};
pub use searching::Nodes;
pub use told::rows_told;
