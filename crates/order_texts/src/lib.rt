//! Orders as text, which can be pasted into a file of an order.
#![tactic(auto)]

pub mod laws;
mod operations;

pub use operations::{OperationText, write_order};
pub use text_numbers::NumberText;
