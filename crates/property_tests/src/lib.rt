//! Tests of the properties that listings carry, with answers of an independent model.
#![tactic(auto)]

#[cfg(test)]
mod reading;
