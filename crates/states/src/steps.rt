//! The steps of harts that were computed.

ghost use Rattle.std.specs.Prelude.{
  ◌≡◌,
  ◌⊎◌,
  ◌++◌,
  ℕ,
  [],
  ◌∷◌,
  List,
  slice_get,
  None,
  Some,
  IfOk,
  IfSome,
};
ghost use Rattle.states.specs.Steps.{IsKnown};

use crate::locals::LocalStep;
use interner::Interner;
use std::alloc::{AllocError, Global};
use std::marker::Model;

/// A step that was computed: the numbers of its hart and of the value in the granule that it may
/// touch, and what it leaves.
#[derive(Clone, Copy)]
pub struct KnownStep {
    pub hart: u32,
    pub value: u32,
    pub after: LocalStep,
}

/// How many steps are at hand.
const AT_HAND: usize = 1024;

/// How far apart the places of one hart's steps are where the numbers of their values follow each
/// other. Many harts in turn have numbers that follow each other, too, so it is odd and not small.
const APART: u32 = 97;

/// Steps that were computed, each once, to be looked up by the numbers of a hart and of a value.
#[derive(Drop)]
pub struct Steps {
    /// The numbers of each step's hart and value.
    keys: Interner,
    steps: Vec<KnownStep>,
    /// Steps at hand, each at the place of its numbers, so that most are found without the keys.
    recent: Vec<KnownStep>,
}

impl Model for Steps {
    ghost use Rattle.std.specs.Prelude.{List};
    ghost use Rattle.states.specs.Steps.{AreSteps};
    ghost use Rattle.states.specs.declared.steps.KnownStep.{KnownStep};

    ghost Value = { List KnownStep };

    ghost view = { λ a. a.steps.items };

    ghost invariant = { λ a. AreSteps a.keys a.steps.items a.recent.items };
}

/// Where the step of a hart and a value is, if it is at hand.
fn place_of(hart: u32, value: u32) -> usize {
    hart.wrapping_add(value.wrapping_mul(APART)) as usize % AT_HAND
}

/// Fills the places at hand that are missing with this step. Fails only when out of memory.
fn fill(recent: &mut Vec<KnownStep>, step: KnownStep) -> Result<(), AllocError>
    ensures { (k : ℕ) (other : KnownStep) → slice_get recent.new.items k ≡ Some other →
        (slice_get recent.old.items k ≡ Some other) ⊎ (step ≡ other) }
{
    for _ in recent.len()..AT_HAND {
        recent.push(step)?;
    }
    Ok(())
}

impl Steps {
    /// No steps. Allocates nothing.
    pub fn new(alloc: Global) -> Steps
        ensures { result ≡ [] }
    {
        Steps {
            keys: Interner::new(alloc, 2),
            steps: Vec::new(alloc),
            recent: Vec::new(alloc),
        }
    }

    /// What the step of this hart leaves, where its granule has this value, if that was computed.
    pub fn find(&mut self, hart: u32, value: u32) -> Option<LocalStep>
        ensures found { IfSome result (λ after.
            IsKnown self.old (record { hart = hart; value = value; after = after })) }
        ensures absent { result ≡ None → (after : LocalStep) →
            ¬ IsKnown self.old (record { hart = hart; value = value; after = after }) }
        ensures same { self.new ≡ self.old }
    {
        if let Some(after) = self.at_hand(hart, value) {
            return Some(after);
        }
        let number = self.keys.find(&[hart, value])?;
        let step = self.steps[number as usize];
        self.take_at_hand(step);
        Some(step.after)
    }

    /// The same, if it is at hand.
    fn at_hand(&self, hart: u32, value: u32) -> Option<LocalStep>
        ensures { IfSome result (λ after.
            IsKnown self.now (record { hart = hart; value = value; after = after })) }
    {
        let step = self.recent.get(place_of(hart, value))?;
        if step.hart != hart || step.value != value {
            return None;
        }
        Some(step.after)
    }

    /// Puts a step to its place at hand, if there are places.
    fn take_at_hand(&mut self, step: KnownStep)
        requires { IsKnown self.old step }
        ensures { self.new ≡ self.old }
    {
        let place = place_of(step.hart, step.value);
        if place < self.recent.len() {
            self.recent[place] = step;
        }
    }

    /// Keeps a step that was computed, unless there is one of that hart and that value. Fails only
    /// when out of memory, or of numbers.
    pub fn keep(&mut self, step: KnownStep) -> Result<(), AllocError>
        ensures added { (self.new ≡ self.old) ⊎ (self.new ≡ self.old ++ step ∷ []) }
        ensures there { IfOk result (λ _. (after : LocalStep)
            × IsKnown self.new (record { hart = step.hart; value = step.value; after = after })) }
    {
        let key = [step.hart, step.value];
        if self.keys.find(&key).is_some() {
            return Ok(());
        }
        self.steps.push(step)?;
        match self.keys.insert(&key) {
            Ok(_) => fill(&mut self.recent, step),
            Err(fault) => {
                self.steps.pop();
                Err(fault)
            }
        }
    }
}
