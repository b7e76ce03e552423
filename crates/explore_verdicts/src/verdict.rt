//! Verdicts.

use cheri_model::Op;
use explore_properties::Property;
use state_loops::Lasso;

/// What is known of a property.
#[derive(Drop)]
pub enum Verdict {
    /// It holds, whatever order is taken.
    Holds,
    /// It holds: this order leads to a state as it asks for.
    HoldsAfter(Vec<Op>),
    /// It is violated: no order leads to a state as it asks for.
    Violated,
    /// It is violated: this order leads to a state as it rules out.
    ViolatedAfter(Vec<Op>),
    /// It is violated: this run goes on for ever.
    ViolatedBy(Lasso),
    /// The states that were kept are not all, and none of them decides it.
    Unknown,
}

/// A property, and what is known of it.
#[derive(Drop)]
pub struct PropertyVerdict<'p, 'a> {
    pub property: &'p Property<'a>,
    pub verdict: Verdict,
}
