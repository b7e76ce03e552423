//! What a program prints: a text that is written whole, and the line of a value.
#![tactic(auto)]

mod line;
mod text;

pub use line::write_line;
pub use text::{flush, give_back, print, write_text};
