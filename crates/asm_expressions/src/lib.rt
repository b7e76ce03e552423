//! Expressions of assembly: read from tokens, and worked out.
//!
//! An expression is a list of nodes, each after those of its operands, so that it is worked out
//! from the first to the last. The operators bind as GNU's and LLVM's assemblers have it for
//! RISC-V, and not as in C.
#![tactic(auto)]

mod draft;
pub mod laws;
mod moves;
mod node;
mod reading;
mod tokens;
mod values;

pub use node::{Node, NodeKind};
pub use reading::read_expression;
pub use tokens::{fault_at, kind_at, place_at, text_at};
pub use values::{LookUp, ValueFault, value_of};
