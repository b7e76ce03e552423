//! Properties that a listing carries: lines that begin with `#!`, and what each says of the states
//! that a search kept.
#![tactic(auto)]

mod claims;
mod fault;
mod lines;
mod reading;
mod statements;

pub use claims::{Claim, MAX_PROPERTIES, Properties, Property, When};
pub use fault::{PropertyFault, PropertyPlace};
pub use reading::read_properties;
