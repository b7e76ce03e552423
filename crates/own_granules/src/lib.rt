//! Why accesses to granules of one hart alone may be quiet: a search over all orders that takes
//! them as such has the answers of the machine.
#![tactic(auto)]

pub mod laws;
