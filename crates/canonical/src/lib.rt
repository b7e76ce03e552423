//! Listings written back: the canonical listing of an image, and that it means the image again.
#![tactic(auto)]

pub mod laws;
mod writer;

pub use writer::write_listing;
