//! What files of a program have together: the symbols that all of them see, and their sections,
//! with the order in which chunks are laid out.
#![tactic(auto)]

mod locals;
mod order;
mod replacing;
mod sections;
mod seen;
mod sizes;

pub use locals::local_label;
pub use order::chunk_order;
pub use sections::judge_sections;
pub use seen::seen_by_all;
pub use sizes::first_sizes;
