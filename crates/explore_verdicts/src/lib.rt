//! What the kept states of a search say of properties.
#![tactic(auto)]

mod deciding;
mod judging;
mod verdict;
mod watching;

pub use deciding::Decision;
pub use judging::{absent_verdict, found_verdict, judge_all, judge_ends};
pub use verdict::{PropertyVerdict, Verdict};
pub use watching::watches_of;
