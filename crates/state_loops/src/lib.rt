//! Whether runs of an image's harts can go on for ever: loops of the states that a search kept.
#![tactic(auto)]

mod endless;

pub use endless::{Endless, Judged, Lasso, endless_of};
