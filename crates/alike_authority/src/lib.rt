//! The greatest rights that harts and memory ever hold, where equal harts are not told apart.
#![tactic(auto)]

mod answers;
mod asking;
mod exchanging;
mod groups;
mod heads;
mod json;
mod text;
mod told;

pub use asking::{Manner, authority_alike};
