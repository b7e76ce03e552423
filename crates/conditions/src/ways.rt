//! How a number may move without that a comparison changes.
#![tactic(auto, unfolding(crate::proofs::Unfold::ways))]

ghost use Rattle.std.specs.Prelude.{◌≡◌};
ghost use Rattle.conditions.specs.Hiding.{count_needs, left_way, moves, opposite};

use crate::parts::Comparison;

/// How a number may move.
#[derive(Clone, Copy, Debug)]
pub(crate) enum Way {
    Falls,
    Rises,
    Stays,
}

impl Way {
    /// The way of the other side of a comparison.
    pub(crate) fn opposite(self) -> Way
        ensures { result ≡ opposite self }
    {
        match self {
            Way::Falls => Way::Rises,
            Way::Rises => Way::Falls,
            Way::Stays => Way::Stays,
        }
    }

    /// Whether a number moves so, or stays.
    pub(crate) fn moves(self, before: u128, after: u128) -> bool
        ensures { result ≡ moves self before after }
    {
        match self {
            Way::Falls => after <= before,
            Way::Rises => before <= after,
            Way::Stays => after == before,
        }
    }
}

impl Comparison {
    /// How the first number may move where the comparison is to stay true, or false.
    pub(crate) fn left_way(self, wanted: bool) -> Way
        ensures { result ≡ left_way wanted self }
    {
        let way = match self {
            Comparison::Equal | Comparison::NotEqual => Way::Stays,
            Comparison::Less | Comparison::AtMost => Way::Falls,
            Comparison::Greater | Comparison::AtLeast => Way::Rises,
        };
        if wanted { way } else { way.opposite() }
    }

    /// Whether a count of harts that is to stay as wanted needs that no part stops being true, or
    /// false.
    pub(crate) fn needs(self, wanted: bool, number: u128, value: bool) -> bool
        ensures { result ≡ count_needs wanted self number value }
    {
        match self {
            Comparison::AtLeast | Comparison::Greater => wanted == value,
            Comparison::AtMost | Comparison::Less => wanted != value,
            Comparison::Equal => number != 0 || wanted != value,
            Comparison::NotEqual => true,
        }
    }
}
