//! Steps of harts as a run in an order drawn by chance needs them: what a step changed in memory,
//! which harts run, and whether those that do go round for ever.
#![tactic(auto)]

mod hanging;
mod listing;
mod writes;

pub use hanging::{ALONE, all_stay, runs};
pub use listing::{Running, list_running};
pub use writes::{Change, put_granule, step_hart};
