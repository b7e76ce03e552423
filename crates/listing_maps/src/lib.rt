//! The map of a listing's program, and what conditions beside the listing may name by it.
#![tactic(auto)]

mod names;
mod reading;
mod symbols;

pub use names::Names;
pub use reading::read_sources;
