//! Searches in which accesses to granules of one hart alone, or that nobody writes, are quiet
//! steps, so that they keep fewer states.
#![tactic(auto)]

mod accesses;
mod graph;
mod kept;
mod scan;
mod touches;
mod walks;

pub use graph::GranuleGraph;
pub use kept::{Looped, OwnedStates, opened_graph, search_owned};
pub use walks::orders_of;
