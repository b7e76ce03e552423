//! Tests of the crates of graphs, by their public calls alone, as their users make them.
#![tactic(auto)]

#[cfg(test)]
mod loops;
#[cfg(test)]
mod nodes;
#[cfg(test)]
mod routes;
#[cfg(test)]
mod rows;
#[cfg(test)]
mod walks;
