//! Numbers as text: digits read as the numbers that they write, and numbers written in hexadecimal.
#![tactic(auto)]

mod hexadecimal;
mod reading;

pub use hexadecimal::{BUFFER, Hex64, NumberText, word_digits};
pub use reading::{digit_count, digits_value, number_in, number_of};
