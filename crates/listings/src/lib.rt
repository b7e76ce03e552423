//! Listings: texts that say what a machine holds before its first step.
#![tactic(auto)]

mod draft;
mod fault;
mod granules;
pub mod laws;
mod line_numbers;
mod reader;
mod statement;

pub use fault::ListingFault;
pub use line_numbers::instruction_lines;
pub use reader::{LISTING_LIMIT, read_listing};
