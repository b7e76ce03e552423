//! The laws over the definitions: each function's contract is one law, and the function does
//! nothing.

pub mod alignment;
pub mod constants;
pub mod lengths;
pub mod results;
pub mod rounding;
pub mod words;
