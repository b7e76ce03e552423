//! What is told of properties.

use cheri_model::Op;
use explore_properties::Property;
use sample_tallies::Seen;

/// The runs that decide a property, and the order of the first of them up to the first state that
/// does.
#[derive(Drop)]
pub struct Decided {
    pub seen: Seen,
    pub order: Vec<Op>,
}

/// A property, and what decided it, if runs did.
#[derive(Drop)]
pub struct PropertySeen<'p, 'a> {
    pub property: &'p Property<'a>,
    pub decided: Option<Decided>,
}
