//! Statements of assembly: labels, directives and instructions with their operands, each read from
//! its tokens alone.
//!
//! A statement is all that was read of it before its first fault, with that fault. What depends on
//! other statements, as whether a name is defined twice or an expression is known, isn't judged
//! here.
#![tactic(auto)]

mod bodies;
mod choosing;
mod directives;
mod draft;
mod flags;
mod forms;
mod instructions;
mod lists;
mod operands;
mod operations;
mod reader;
mod reading;
mod section_names;
mod sections;
mod statement;
mod wanted;

pub use reading::{read_statement, read_statements};
pub use section_names::push_section_name;
pub use statement::{Body, Operand, Role, Statement};
