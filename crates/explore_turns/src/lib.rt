//! Turns of harts: a step, and then those that no other hart, no sweep and no question can see. A
//! search by turns has fewer states than one by steps, and the same answers.
#![tactic(auto)]

pub mod laws;
mod quiet;
mod turn_orders;

pub use quiet::{MAX_QUIET_STEPS, asks_memory, rest};
pub use turn_orders::order_of_turns;
