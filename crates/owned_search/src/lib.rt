//! Searches in which harts forget the registers that don't matter, and accesses to granules of one
//! hart alone, or that nobody writes, are quiet steps.
#![tactic(auto)]

mod graph;
mod known;
mod nodes;
mod seeking;

pub use seeking::{OwnedSought, Owning, seek_owned};
