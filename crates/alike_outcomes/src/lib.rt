//! The outcomes of an image up to which of several equal harts stands where.
#![tactic(auto)]

mod answers;
mod asking;
mod heads;
mod listed;
mod searching;
mod shown;
mod told;

pub use asking::{Manner, list_alike, show_alike};
