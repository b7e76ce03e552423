//! The run of two texts, a listing and an order, and what of it a sink takes.
#![tactic(auto)]

mod faults;
mod json;
mod run_text;
mod runs;
mod simulation;

pub use faults::SimFault;
pub use json::simulate_json;
pub use run_text::{RunText, run_and_write};
pub use runs::run_texts;
pub use simulation::simulate;
