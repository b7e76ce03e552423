//! The names of instructions of assembly: those of the machine, and those that stand for others.
#![tactic(auto)]

mod mnemonics;

pub use mnemonics::{Mnemonic, mnemonic_of, push_small};
