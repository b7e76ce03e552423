//! The answer to `check`: what a search says of the properties that a listing carries.
#![tactic(auto, using(crate::proofs::Rulesets::checks))]

mod answers;
mod head;
mod json;
mod searching;
mod texts;

pub use answers::{check, checked, ending_of, orders_against};
pub use head::Head;
pub use searching::one_asks;
