//! Orders of a listing that an answer tells of, each explained after it.
#![tactic(auto)]

mod explaining;

pub use explaining::explain_orders;
