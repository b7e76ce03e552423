//! Tests of the crates that read assembly, by their public calls alone, as their users make them.
#![tactic(auto)]

#[cfg(test)]
mod contents;
#[cfg(test)]
mod names;
#[cfg(test)]
mod statements;
#[cfg(test)]
mod tokens;
#[cfg(test)]
mod values;
