//! Finds loops of a graph's states, fair ones first. Knows nothing of what the states are.
#![tactic(auto)]

mod components;
mod judging;
mod rounds;

pub use judging::{FoundLoop, Verdict, search_loops};
