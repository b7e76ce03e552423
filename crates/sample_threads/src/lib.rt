//! Counting runs in drawn orders by many threads.
#![tactic(auto)]

mod rounds;
mod threads;

pub use rounds::Runs;
pub use threads::count_all;
