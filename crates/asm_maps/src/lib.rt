//! The map of an assembled program: which statement each instruction comes from, and where symbols,
//! the capability table and stacks are.
#![tactic(auto)]

mod line;
mod writer;

pub use line::{Label, MapLine, Stack};
pub use writer::write_map;
