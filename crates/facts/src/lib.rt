//! Facts of a run: what each event read, found, left and set, why it trapped and why a tag was
//! lost, and from which initial capability each tagged value came.
#![tactic(auto)]

mod clearing;
mod finishing;
pub mod laws;
mod losses;
mod names;
mod operands;
mod step_facts;
mod stepping;
mod sweeping;
mod trapping;
mod why;

pub use finishing::{after_step, flows_of_step};
pub use step_facts::{Cleared, Extent, Fetched, NamedValue, StepFacts, Trapped, UpToTwo};
pub use stepping::{Moment, Seen, before_step};
pub use sweeping::swept_places;
pub use why::{TrapWhy, Why};
