//! Orders: texts of digits, each of which asks for one step of that hart, and in version 2 of
//! sweeps of ranges of addresses.
#![tactic(auto)]

mod fault;
mod judged;
mod numbers;
mod reader;
mod sweeps;

pub use fault::{OrderFault, OrderFaultKind};
pub use judged::{JudgedOrder, judge_order};
pub use reader::{ORDER_LIMIT, read_order};
