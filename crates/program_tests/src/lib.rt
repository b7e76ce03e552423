//! Tests of what the programs' libraries hand up beside `perform`, and no file or option can show.
#![tactic(auto)]

#[cfg(test)]
mod common;
#[cfg(test)]
mod faults;
#[cfg(test)]
mod looks;
#[cfg(test)]
mod progress;
