//! The registers that conditions and items ask for, of whichever hart: where a state keeps them, it
//! may forget the others.
#![tactic(auto)]

mod asked;
pub mod laws;

pub use asked::{with_items, with_nodes};
