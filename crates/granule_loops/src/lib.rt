//! Whether runs of an image's harts can go on for ever, by the states of a search in which accesses
//! to granules of one hart alone, or that nobody writes, are quiet steps.
#![tactic(auto)]

mod endless;

pub use endless::{Judged, endless_of};
