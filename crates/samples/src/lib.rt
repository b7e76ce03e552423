//! What the tests of several crates use: values of rows, what is read off a value, harts and images
//! with one thing in them, and the first worked run with its report.
#![tactic(auto, unfolding(crate::specs::Values::given_value))]

mod first_run;
mod machines;
mod values;

pub use first_run::{FIRST, FIRST_JSON, FIRST_REPORT};
pub use machines::{hart_at, image_with};
pub use values::{ALL, Given, K, NULL, Tagged, made, perms, tagged_word};
