//! The core of the machine: its state is always the replay of its trace. And the run of an order
//! on one thread.
#![tactic(auto)]

mod cores;
mod faults;
pub mod laws;
mod opening;
mod runs;
mod sweeps;

pub use cores::{Core, GREATEST_TRACE_LIMIT};
pub use faults::{BootFault, StepFault};
pub use runs::{run_judged, run_order};
