//! The instructions of statements: how their values are found, their places, and their origins.
#![tactic(auto)]

mod exits;
mod origin;
mod overwriting;
mod source;

pub use exits::push_exit;
pub use origin::{Origin, fill_gaps, mark};
pub use overwriting::overwrite;
pub use source::{Source, expansion_for, source_of};
