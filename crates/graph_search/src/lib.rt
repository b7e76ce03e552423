//! The states of a graph, found breadth first, each with the shortest walk that leads to it. Knows
//! nothing of what the states are.
#![tactic(auto)]

mod ahead;
mod by_rounds;
mod edges;
mod graphs;
mod progress;
mod reached;
mod rounds;
mod search;
mod trees;

pub use edges::Edge;
pub use graphs::Graph;
pub use progress::{CountedProgress, NoProgress, Progress};
pub use reached::Reached;
pub use search::{explore, explore_more};
