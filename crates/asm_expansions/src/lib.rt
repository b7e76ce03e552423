//! The instructions that an instruction of assembly stands for: its registers are read and its
//! value is known.
#![tactic(auto)]

mod constants;
mod counts;
mod expansion;
mod expansions;
mod immediates;
pub mod laws;
mod operation;

pub use expansion::Expansion;
pub use immediates::{high_field, low};
pub use operation::{Operation, PseudoBranchOp, PseudoThreeOp, PseudoTwoOp, ZeroBranchOp};
