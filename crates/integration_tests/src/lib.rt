//! Tests of `texts`, `reports`, `machine` and `harts` by their public calls alone, as their users
//! make them.
#![tactic(auto)]

#[cfg(test)]
mod common;
#[cfg(test)]
mod machines;
#[cfg(test)]
mod races;
#[cfg(test)]
mod refused_memory;
#[cfg(test)]
mod reporting;
#[cfg(test)]
mod runs;
#[cfg(test)]
mod sweeps;
#[cfg(test)]
mod watches;
#[cfg(test)]
mod writing;
