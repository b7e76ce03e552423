//! Tests of `hart_step` by its public calls alone, as its users make them.
#![tactic(auto)]

#[cfg(test)]
mod steps;
