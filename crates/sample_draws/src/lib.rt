//! Orders drawn by chance: the generator of a run, what its words draw, and the operation that is
//! chosen next, by an even walk or by random priorities, with sweeps or without.
#![tactic(auto)]

mod cycles;
mod drawing;
mod draws;
pub mod laws;
mod priorities;
mod ranks;
mod words;

pub use cycles::{Cycle, same_value};
pub use drawing::{Drawing, MAX_DEPTH, MAX_LENGTH, MAX_RUN, MAX_SEED, MAX_SWEEPS};
pub use draws::Draws;
