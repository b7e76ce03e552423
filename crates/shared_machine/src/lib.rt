//! The machine that threads share: a core with one share for each hart, which watchers look at
//! without a lock.
#![tactic(auto)]

mod faults;
pub mod laws;
mod machines;
mod shares;
mod sweeps;
mod watching;

pub use faults::{OpenFault, WatchFault};
pub use machines::Machine;
pub use shares::{Blanks, Lane, Naming, Share};
pub use sweeps::Sweeper;
pub use watching::watch::{Look, Receipt, Watch};
