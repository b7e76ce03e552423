//! Tests of the registers that matter, with sets of an independent model.
#![tactic(auto)]

#[cfg(test)]
mod sets;
