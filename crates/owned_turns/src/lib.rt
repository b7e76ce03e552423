//! Own granules and dead registers together: turns in which accesses to own granules are quiet, and
//! after which harts forget the registers that don't matter.
#![tactic(auto)]

pub mod laws;
