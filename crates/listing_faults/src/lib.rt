//! The faulty lines of a listing, each with its fault.
#![tactic(auto)]

mod faults;
mod lines;

pub use faults::{MOST_READINGS, listing_faults};
