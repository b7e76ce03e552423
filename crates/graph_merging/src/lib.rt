//! Graphs with fewer states and the same answers: each state has one that stands for it, and the
//! walks and loops of those are the graph's own. Knows nothing of what the states are.
#![tactic(auto)]

pub mod laws;
