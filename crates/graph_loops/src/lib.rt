//! Whether a graph's states have loops, and fair ones, from a number for each state that somebody
//! else found; and whether labels are those of a loop. Knows nothing of what the states are.
#![tactic(auto)]

mod edges;
mod labels;
mod scans;
mod tables;

pub use edges::{edge_room, has_edge, target_of};
pub use labels::{Round, judge_labels};
pub use scans::{Loops, judge_loops};
