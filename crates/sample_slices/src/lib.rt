//! Slices: one line of text that tells what the runs with some numbers gave.
#![tactic(auto)]

mod again;
mod claimed;
mod counts;
mod decided;
mod drawn;
mod fault;
mod items;
mod listing;
mod members;
mod numbers;
mod question;
mod reading;
mod slice;
mod sweeps;
mod tally;

pub use fault::{LineFault, SliceError, SliceFault, SliceKind};
pub use listing::{KnownListing, SliceListing};
pub use reading::read_slice;
pub use slice::Slice;
pub use sweeps::unite_sweeps;
