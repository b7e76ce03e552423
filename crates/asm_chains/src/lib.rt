//! The values of symbols that stand for expressions, in chains of any order and length.
#![tactic(auto)]

mod faults;
pub mod laws;
mod order;
mod scene;
mod settling;
mod table;

pub use asm_expressions::{Node, NodeKind};
pub use asm_tokens::AsmFaultKind;
pub use asm_values::{Location, Value};
pub use faults::{late_symbol, late_value, value_if_known};
pub use scene::{LateFault, Leaf, Scene, Setting};
pub use settling::known_values;
