//! Machines whose harts forget the registers that don't matter: their runs do what the runs of the
//! machine do.
#![tactic(auto)]

pub mod laws;
