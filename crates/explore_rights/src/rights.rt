//! Bounds and permissions.
#![tactic(auto, unfolding(crate::proofs::Unfold::rights))]

ghost use Rattle.std.specs.Prelude.{◌≡◌};
ghost use Rattle.explore_rights.specs.Rights.{rights_of, is_within, is_before};

use bitflags::Flags;
use cap_ops::Cap;
use cheri_model::Perms;

/// Bounds and permissions: the base, the top, which is the first address above, and a set.
#[derive(Clone, Copy, Debug, PartialEq, Eq)]
pub struct Rights {
    pub base: u64,
    pub top: u128,
    pub perms: Perms,
}

impl Rights {
    /// The bounds and permissions of a value.
    pub fn of(cap: Cap) -> Rights
        ensures { result ≡ rights_of cap }
    {
        let (base, top) = cap.bounds();
        Rights {
            base,
            top,
            perms: cap.perm(),
        }
    }

    /// Whether these lie within others.
    pub fn is_within(self, outer: Rights) -> bool
        ensures { result ≡ is_within self outer }
    {
        if self.base < outer.base || outer.top < self.top {
            return false;
        }
        self.perms.bits() & outer.perms.bits() == self.perms.bits()
    }

    /// Whether these come before others: ascending by base, then by top descending, then by
    /// permissions as a number.
    pub fn is_before(self, other: Rights) -> bool
        ensures { result ≡ is_before self other }
    {
        if self.base != other.base {
            return self.base < other.base;
        }
        if self.top != other.top {
            return other.top < self.top;
        }
        self.perms.bits() < other.perms.bits()
    }
}
