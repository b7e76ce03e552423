//! The lines that answer what a range is rounded to and what a word of 128 bits says, and the
//! numbers that ask for them.
#![tactic(auto)]

pub mod laws;
mod lines;
mod numbers;

pub use lines::{bounds_text, decode_text};
pub use numbers::{
    GREATEST_ADDRESS, GREATEST_WORD, NumberFault, number_given, range_line, word_line,
};
