//! The simulator as calls for a page: each takes texts, and gives a text and why there is no more.
//!
//! Every call answers for all arguments. What is written to `out`, and what `answer` then says, is
//! said by the definitions of `specs/Answers.antt`.
#![tactic(auto)]

mod answer;
mod assembly;
mod fault;
mod faulty;
mod mapped;
mod numbers;
mod runs;
mod searches;
mod texts;
