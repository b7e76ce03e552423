//! The texts that a machine is given: listings, read and written back, and orders, read.
//!
//! [`read_listing`] and [`write_listing`] go between a listing and the image that it means,
//! [`read_order`] from an order to its operations. Each stands in a crate of its own, with its
//! contract: `listings`, `canonical` and `orders`.
#![tactic(auto)]

pub use canonical::write_listing;
pub use grammar::fault::ListingFaultKind;
pub use listings::{LISTING_LIMIT, ListingFault, instruction_lines, read_listing};
pub use orders::{JudgedOrder, ORDER_LIMIT, OrderFault, OrderFaultKind, judge_order, read_order};
