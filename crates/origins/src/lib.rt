//! Origins: from which initial capability each tagged value of a running machine comes.
//!
//! An origin is the name of a place of the machine's opening state. `specs/` says which places each
//! instruction sets, and from which, and folds these along an order. [`laws`] has the functions
//! whose contracts are the laws: above all, that every tagged value lies within the initial
//! capability that its origin names.
#![tactic(auto)]

pub mod laws;
mod place;
mod step_flows;
mod table;

pub use place::{Flow, Place, Spot};
pub use step_flows::{StepFlows, flows};
pub use table::OriginTable;
