//! Tests of conditions and of the items of outcomes, with answers of an independent model.
#![tactic(auto)]

#[cfg(test)]
mod faults;
#[cfg(test)]
#[cfg(test)]
mod states;
