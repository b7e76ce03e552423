//! Memory of an assembled program: bytes, numbers and capabilities that are put into it.
#![tactic(auto)]

mod memory;
mod numbers;

pub use memory::{listed_granules, put_bytes, put_capability, put_fill};
pub use numbers::{is_in_width, put_number};
