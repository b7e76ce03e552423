//! Harts as threads: one worker for each hart of a machine, which step it in turns under one lock.
#![tactic(auto)]

mod calls;
mod faults;
mod gates;
mod lock;
mod races;
mod viewers;
mod workers;

pub use calls::Calls;
pub use faults::RunFault;
pub use gates::{Call, Gate, Turn};
pub use lock::Shared;
pub use races::{run_harts, run_watched};
pub use viewers::Viewer;
pub use workers::{HartReport, Why, hart_loop};
