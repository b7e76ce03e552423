//! The harts of an image that are the same to a question.
#![tactic(auto)]

mod alike;
mod groups;

pub use groups::{any_grouped, groups_of};
