//! Comparisons of two values, tagged or not (CHERI ISA v9, "capability instructions").
#![tactic(auto, unfolding(crate::proofs::Unfold::comparisons))]

ghost use Rattle.std.specs.Prelude.{◌≡◌};
ghost use Rattle.cap_model.specs.values.CapValue.{parts_of};
ghost use Rattle.cap_model.specs.results.Readings.{same_tag, lies_in, is_subset, is_equal_exact};

use crate::cap::Cap;

/// Whether two tags are equal.
fn same_tag(first: bool, second: bool) -> bool
    ensures { result ≡ same_tag first second }
{
    if first { second } else { !second }
}

impl Cap {
    /// Whether the tags are equal, and the other's bounds and permissions lie in this one's
    /// (CTestSubset). Object types are not compared.
    pub fn test_subset(self, other: Cap) -> bool
        ensures { result ≡ is_subset self other }
    {
        if !same_tag(self.tag(), other.tag()) {
            return false;
        }
        self.holds_parts_of(other)
    }

    /// Whether the other's bounds and permissions lie in this one's, as numbers.
    pub(crate) fn holds_parts_of(self, other: Cap) -> bool
        ensures { result ≡ lies_in (parts_of self) (parts_of other) }
    {
        let (base, top) = self.bounds();
        let (other_base, other_top) = other.bounds();
        if base > other_base {
            return false;
        }
        if other_top > top {
            return false;
        }
        let perms = other.permission_bits();
        perms & self.permission_bits() == perms
    }

    /// Whether the tags and the words are equal (CSetEqualExact).
    pub fn equal_exact(self, other: Cap) -> bool
        ensures { result ≡ is_equal_exact self other }
    {
        if !same_tag(self.tag(), other.tag()) {
            return false;
        }
        self.bits() == other.bits()
    }
}
