//! Laws: maps that are written are read as they are.
#![tactic(auto)]

pub mod laws;
