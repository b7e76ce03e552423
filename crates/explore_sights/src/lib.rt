//! What a question sees of a hart's steps: a step that a question doesn't see can be taken together
//! with the one before it.
#![tactic(auto)]

pub mod laws;
mod sights;
mod watches;

pub use sights::Sight;
pub use watches::{Watch, Watches};
