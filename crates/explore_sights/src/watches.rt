//! Conditions that a question asks of all states: in which states each holds, or doesn't.

ghost use Rattle.std.specs.Prelude.{◌≡◌, IfOk};
ghost use Rattle.std.specs.List.{list_all};
ghost use Rattle.explore_sights.specs.Watches.{hides, is_met};

use conditions::{Condition, StateView};
use hart::Hart;
use std::alloc::{AllocError, Global};
use std::marker::Model;

/// A question on states in which a condition holds, or on those in which it doesn't.
#[derive(Drop)]
pub struct Watch {
    pub condition: Condition,
    /// Whether it is asked for states in which the condition holds.
    pub holds: bool,
}

impl Watch {
    /// Whether a state is one that is asked for.
    pub fn is_met<V: StateView>(&self, view: &V) -> bool
        ensures { result ≡ is_met self.now (V.state view.now) }
    {
        self.condition.holds(view) == self.holds
    }

    /// Whether the question doesn't see a step of a hart: a state that is asked for stays one. A
    /// step by which a condition may begin to hold is one that may end it, taken back.
    fn hides(&self, before: &Hart, after: &Hart) -> bool
        ensures { result ≡ hides self.now before.now after.now }
    {
        if self.holds {
            self.condition.hides(before, after)
        } else {
            self.condition.hides(after, before)
        }
    }

    /// The same question. Fails only when out of memory.
    fn copy(&self, alloc: Global) -> Result<Watch, AllocError>
        ensures { IfOk result (λ copy. copy ≡ self.now) }
    {
        Ok(Watch {
            condition: self.condition.copy(alloc)?,
            holds: self.holds,
        })
    }
}

/// Such questions.
#[derive(Drop)]
pub struct Watches {
    watches: Vec<Watch>,
}

impl Model for Watches {
    ghost use Rattle.std.specs.Prelude.{List};
    ghost use Rattle.explore_sights.specs.declared.watches.Watch.{Watch};

    ghost Value = { List Watch };

    ghost view = { λ a. a.watches.items };
}

/// Whether none of these sees a step of a hart.
fn hide(watches: &[Watch], before: &Hart, after: &Hart) -> bool
    ensures { result ≡ list_all (λ watch. hides watch before.now after.now) watches.now }
{
    for watch in watches {
        if !watch.hides(before, after) {
            return false;
        }
    }
    true
}

/// The same questions. Fails only when out of memory.
fn copied(alloc: Global, watches: &[Watch]) -> Result<Vec<Watch>, AllocError>
    ensures { IfOk result (λ copies. copies.items ≡ watches.now) }
{
    let mut copies = Vec::with_capacity(alloc, watches.len())?;
    for watch in watches {
        copies.push(watch.copy(alloc)?)?;
    }
    Ok(copies)
}

impl Watches {
    /// These questions.
    pub fn new(watches: Vec<Watch>) -> Watches
        ensures { result ≡ watches.items }
    {
        Watches { watches }
    }

    /// Whether none of them sees a step of a hart.
    pub(crate) fn hides(&self, before: &Hart, after: &Hart) -> bool
        ensures { result ≡ list_all (λ watch. hides watch before.now after.now) self.now }
    {
        hide(self.watches.as_slice(), before, after)
    }

    /// The same questions. Fails only when out of memory.
    pub(crate) fn copy(&self, alloc: Global) -> Result<Watches, AllocError>
        ensures { IfOk result (λ copy. copy ≡ self.now) }
    {
        let watches = copied(alloc, self.watches.as_slice())?;
        Ok(Watches { watches })
    }
}
