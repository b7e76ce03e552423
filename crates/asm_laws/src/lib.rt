//! The laws of assembly: what the machine's own steps leave of the instructions that an instruction
//! of assembly stands for.
#![tactic(auto)]

pub mod laws;
