//! What is told of many runs in drawn orders, as text and in JSON.
#![tactic(auto)]

mod answer;
mod drawn;
mod ends;
mod lines;
mod members;
mod properties;
mod redrawn;
mod rows;
mod sampled;
mod spans;
mod table;
mod traps;

pub use answer::sample_text;
pub use properties::sample_ending;
pub use sampled::Sampled;
pub use spans::Span;
