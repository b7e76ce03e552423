//! Rights that are held.
#![tactic(auto, unfolding(crate::proofs::Unfold::rights))]

ghost use Rattle.std.specs.Prelude.{◌≡◌};
ghost use Rattle.authorities.specs.Gathering.{stays};

use explore_rights::Rights;

/// Rights that are held, and the number of the first kept state in which just these are held.
#[derive(Clone, Copy, Debug, PartialEq, Eq)]
pub struct Authority {
    pub rights: Rights,
    pub first: u32,
}

impl Authority {
    /// Whether its rights stay beside new ones: before these, or after them.
    pub(crate) fn stays(self, new: Rights, before: bool) -> bool
        ensures { result ≡ stays new before self }
    {
        if self.rights.is_within(new) {
            return false;
        }
        self.rights.is_before(new) == before
    }
}
