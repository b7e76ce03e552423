//! The nodes of a graph: rows of numbers, each kept once, in one word of 64 bits where they fit.
#![tactic(auto)]

mod crew;
mod homes;
mod joining;
mod nodes;
mod packed;
mod packing;
mod parted;
mod parts;
mod sending;
mod tasks;

pub use crew::{Alone, Crew, Team};
pub use joining::{Joined, Joining};
pub use nodes::Nodes;
pub use tasks::Task;
