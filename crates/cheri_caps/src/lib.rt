//! The bounds, words and instructions of capabilities for programs in C and Python: each function
//! here is one of the header `bindings/c/cheri_caps.h`, and each struct one of its structs.
//!
//! Every function answers for all arguments. A struct that comes in may have any bits; what it
//! means, and what a struct that goes out is, say the definitions of `specs/Structs.antt`.
#![tactic(auto)]

mod arrays;
mod checks;
mod instructions;
mod jumps;
pub mod laws;
mod making;
mod operations;
mod ranges;
mod reasons;
mod structs;
mod values;
mod verdicts;
mod why;
mod words;
