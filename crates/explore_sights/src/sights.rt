//! What a question sees of a hart's steps.
#![tactic(auto, unfolding(crate::specs::Sights::hides))]

ghost use Rattle.std.specs.Prelude.{◌≡◌, IfOk};
ghost use Rattle.explore_sights.specs.Sights.{hides};

use crate::watches::Watches;
use conditions::Condition;
use explore_rights::keeps_rights;
use hart::Hart;
use std::alloc::{AllocError, Global};

/// What a question sees of a step that touches no memory.
#[derive(Drop)]
pub enum Sight {
    /// Every step, so that none is hidden.
    EveryStep,
    /// No step, as a question on states in which no hart runs.
    NoStep,
    /// A step that takes from a hart what the condition says of it, as a question on states in
    /// which the condition holds.
    Condition(Condition),
    /// A step that may end that a state is one of those that some question asks for.
    Watches(Watches),
    /// A step after which a right that the hart held lies within none that it holds, as a question
    /// on authority.
    Rights,
}

impl Sight {
    /// Whether nothing is seen of the step between these two states of a hart.
    pub fn hides(&self, before: &Hart, after: &Hart) -> bool
        ensures { result ≡ hides self.now before.now after.now }
    {
        match self {
            Sight::EveryStep => false,
            Sight::NoStep => true,
            Sight::Condition(condition) => condition.hides(before, after),
            Sight::Watches(watches) => watches.hides(before, after),
            Sight::Rights => keeps_rights(before, after),
        }
    }

    /// The same sight. Fails only when out of memory.
    pub fn copy(&self, alloc: Global) -> Result<Sight, AllocError>
        ensures { IfOk result (λ copy. copy ≡ self.now) }
    {
        match self {
            Sight::EveryStep => Ok(Sight::EveryStep),
            Sight::NoStep => Ok(Sight::NoStep),
            Sight::Condition(condition) => Ok(Sight::Condition(condition.copy(alloc)?)),
            Sight::Watches(watches) => Ok(Sight::Watches(watches.copy(alloc)?)),
            Sight::Rights => Ok(Sight::Rights),
        }
    }
}
