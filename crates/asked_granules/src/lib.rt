//! The granules of memory that a condition looks at: where a search takes them as shared, quiet
//! accesses to other granules make no difference to it.
#![tactic(auto)]

mod asked;
pub mod laws;

pub use asked::with_nodes;
