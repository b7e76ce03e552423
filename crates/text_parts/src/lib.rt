//! A text parted at a mark.
#![tactic(auto)]

mod parts;

pub use parts::parted;
