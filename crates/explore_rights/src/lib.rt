//! Rights: the bounds and permissions of capabilities, how they lie within others, and whether a
//! hart loses some by a step.
#![tactic(auto)]

mod held;
pub mod laws;
mod rights;

pub use held::keeps_rights;
pub use rights::Rights;
