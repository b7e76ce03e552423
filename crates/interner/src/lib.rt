//! Rows of numbers, each kept once, under a number of its own. A row is found by its hash and told
//! from every other by all of its numbers.
#![tactic(auto)]

mod growth;
mod hashes;
mod slots;
mod table;
mod word_slots;
mod words;

pub use table::Interner;
pub use words::Words;
