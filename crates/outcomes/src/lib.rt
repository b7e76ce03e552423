//! Outcomes: of states that have numbers, as those that a search kept, the ones in which no hart runs,
//! and the rows of values that they show.
#![tactic(auto)]

mod finals;
mod item_texts;
mod items;
mod numbered;
mod rows;

pub use finals::{is_final, outcomes_of};
pub use item_texts::{items_json, write_items};
pub use items::{ItemValue, codes_of, values_in, values_of};
pub use numbered::NumberedStates;
pub use rows::{Row, rows_of};
