//! Harts of one group under one another's numbers: what a search leaves out that puts them in order.
#![tactic(auto)]

pub mod laws;
