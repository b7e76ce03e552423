//! Capability values: one call for each capability instruction (CHERI ISA v9, "capability
//! instructions").
//!
//! A [`Cap`] is a value of the definitions: a valid capability or a raw word. Each call
//! gives the value that its instruction does. None takes memory, and only making a capability from
//! its parts can be refused.
#![tactic(auto)]

mod cap;
mod changing;
mod comparing;
mod fields;
pub mod laws;
mod making;
mod reading;
mod rebuilding;
mod sealing;

pub use cap::Cap;
pub use making::MakeFault;
