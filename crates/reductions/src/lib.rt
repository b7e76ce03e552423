//! What a search may leave out: registers that no longer matter, and which of several equal harts
//! stands where.
#![tactic(auto)]

mod finding;
mod reduction;

pub use finding::reduction_of;
pub use reduction::{Keeps, LeftOut, Reduction};
