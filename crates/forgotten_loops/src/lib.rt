//! Whether runs of an image's harts can go on for ever, by the states in which each hart forgets
//! the registers that don't matter.
#![tactic(auto)]

mod endless;

pub use endless::{Judged, endless_of};
