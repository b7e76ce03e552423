//! Equal harts under one another's numbers: what one of them comes to hold, each of them does.
#![tactic(auto)]

pub mod laws;
