//! A whole machine: the core, the machine that threads share, and what runs an order or two texts
//! alone.
//!
//! Each stands in a crate of its own, with its contract: `cores`, `shared_machine` and
//! `simulation`.
#![tactic(auto)]

pub use cores::{BootFault, Core, GREATEST_TRACE_LIMIT, StepFault, run_judged, run_order};
pub use shared_machine::{
    Blanks, Lane, Look, Machine, Naming, OpenFault, Receipt, Share, Sweeper, Watch, WatchFault,
    laws,
};
pub use simulation::{SimFault, simulate};
