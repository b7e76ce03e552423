//! The harts that a condition names by their numbers.
#![tactic(auto)]

mod hart_set;
mod named;

pub use hart_set::{HartSet, nobody, union};
pub use named::named_harts;
