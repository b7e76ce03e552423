//! What names mean: the symbols of each file, and those that all files see.
#![tactic(auto)]

mod definitions;
mod globals;
mod locals;
mod names;

pub use asm_values::{Location, Value};
pub use definitions::{Definition, Meaning, Symbols, no_symbols};
pub use globals::{PublishFault, publish, symbol_named};
pub use locals::{Local, Locals, no_locals};
pub use names::Names;
