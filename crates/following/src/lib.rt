//! A run that is followed: a core, and for each value of its state the place of the opening state
//! that it came from, so that each operation can answer its facts.
#![tactic(auto)]

mod fault;
mod follower;

pub use fault::SweepFault;
pub use follower::Follower;
