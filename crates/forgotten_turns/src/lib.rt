//! Turns of harts that forget the registers that don't matter: they lead where the turns of the
//! machine lead.
#![tactic(auto)]

pub mod laws;
