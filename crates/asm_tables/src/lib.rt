//! What names of a program mean, and its capability table: a symbol for each entry that code asks
//! for.
#![tactic(auto)]

mod entries;
mod names;
mod table;

pub use entries::entry_symbol;
pub use names::{named, nodes_in};
pub use table::{Table, table_of};
