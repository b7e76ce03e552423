//! The greatest rights that harts and memory ever hold, and what is said of them.
#![tactic(auto)]

mod answer;
mod json;
mod text;
mod told;

pub use answer::authority;
pub use json::{harts_json, list_json};
pub use text::{write_harts, write_list};
pub use told::Told;
