//! What a search left out, in words: a line, and a list in JSON.
#![tactic(auto)]

mod texts;
mod words;

pub use texts::{reduced_line, reduced_value, write_reduced_line, write_reduced_member};
