//! Laws: what assembly promises of the images that it means.
#![tactic(auto)]

pub mod laws;
