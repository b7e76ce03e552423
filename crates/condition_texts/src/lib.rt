//! Reading conditions, and the items by which outcomes are shown: what their texts mean for an
//! image and what may be named beside its listing.
#![tactic(auto)]

mod atoms;
mod condition;
mod fault;
mod items;
pub mod laws;
mod lists;
mod nesting;
mod openings;
mod places;
mod reading;
mod terms;
mod words;

pub use condition::{MAX_BYTES, MAX_PARENTHESES, read_condition};
pub use fault::TextFault;
pub use items::MAX_ITEMS;
pub use lists::read_items;
