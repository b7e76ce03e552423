//! Laws: what an assembled program begins with can be written as a listing.
#![tactic(auto)]

pub mod laws;
