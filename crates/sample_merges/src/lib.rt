//! What many slices of a sample give together.
#![tactic(auto)]

pub mod laws;
mod lines;
mod merged;
mod merging;
mod questions;
mod refused;
mod sooner;
mod spans;

pub use lines::slice_lines;
pub use merged::Merged;
pub use merging::merge_slices;
pub use questions::ask_the_same;
pub use spans::join_spans;
