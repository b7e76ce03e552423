//! States of a machine, each kept as a short row of numbers. Values, harts and memories are
//! numbered once; a state is the number of its memory and those of its harts.
#![tactic(auto)]

mod codes;
mod harts;
mod memories;
mod store;
mod values;
mod view;

pub use store::Store;
pub use values::Values;
pub use view::State;
