//! What everything of assembly is worth once chunks have addresses.
#![tactic(auto)]

mod judged;
mod late;
mod lengths;
mod linked;
mod reach;
mod scene;
mod uses;
mod values;

pub use asm_capabilities::Reach;
pub use asm_files::{AssemblyFault, Program};
pub use asm_values::{Location, Value};
pub use late::{Entry, Late};
pub use linked::{Linked, link};
