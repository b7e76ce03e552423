//! The questions of `cheri_explore` about the text of a listing, without files and without a
//! command line: each answer is the line of JSON that the program prints.
#![tactic(auto)]

mod answers;
mod drawn;
mod fault;
mod questions;
mod sampling;
mod searched;

pub use drawn::{Drawn, MOST_RUNS};
pub use fault::SearchFault;
pub use questions::{ask_check, ask_find, ask_outcomes, ask_rows};
pub use sampling::ask_sample;
