//! Tests of `cap_model`, `cheri_model`, `cap_bounds`, `cap_ops`, `tagged_mem` and `origins` by
//! their public calls alone: the rows that were worked out by hand, images, and provenance.
#![tactic(auto)]

#[cfg(test)]
mod bounds;
#[cfg(test)]
mod capabilities;
#[cfg(test)]
mod images;
#[cfg(test)]
mod memory;
#[cfg(test)]
mod provenance;
