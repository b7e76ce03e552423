//! The orders of an image's operations as walks in a graph: nodes are states of the machine, and
//! each operation that may be taken is an edge.
#![tactic(auto)]

pub mod laws;
mod ranges;

pub use ranges::SweepRange;
