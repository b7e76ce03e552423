//! Harts of a store in an order of their own: by what they hold, and not by their numbers.
#![tactic(auto)]

pub mod arranging;
pub mod comparing;
pub mod laws;
pub mod rows;

pub use arranging::{HartGroups, UNGROUPED, arrange};
pub use comparing::is_before;
pub use rows::{arrange_row, put_in_order};
