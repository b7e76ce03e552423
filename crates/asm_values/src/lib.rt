//! What expressions of assembly are worth, and what their operators give.
//!
//! A value is a number of 64 bits, or a place in a chunk of the program. Numbers are taken with
//! their signs where that makes a difference, and modulo 2^64 after each operator.
#![tactic(auto)]

mod numbers;
mod operators;
mod values;

pub use operators::{BinaryOp, UnaryOp, binary_of, unary_of};
pub use values::{Location, Value, binary_value, unary_value};
