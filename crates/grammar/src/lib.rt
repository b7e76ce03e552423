//! What the lines of a listing are made of: tokens, and what they write.
//!
//! A line's tokens write numbers, registers, permission sets, capabilities, the names of
//! directives, and operands by the form of an instruction. Jumps name lines of the whole listing,
//! so its labels are found here too.
#![tactic(auto)]

pub mod capability;
pub mod directives;
pub mod fault;
pub mod forms;
pub mod labels;
pub mod lines;
pub mod numerals;
pub mod operands;
pub mod permissions;
pub mod tokens;
