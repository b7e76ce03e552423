//! A run that is taken once more, to be explained.

ghost use Rattle.std.specs.Prelude.{◌≡◌, ◌≤◌, IfOk, OnOk, None, length};
ghost use Rattle.cheri_model.specs.declared.operation.Op.TheVariants as operation;
ghost use Rattle.cheri_model.specs.runs.Replay.{operation_of};
ghost use Rattle.cores.specs.Cores.{opening_core, refused, core_after};
ghost use Rattle.facts.specs.EventFacts.{step, sweep};
ghost use Rattle.explanations.specs.NextFacts.{next_facts, facts_taken};

use cheri_model::{Entry, Event, NoMemory, Op};
use cores::Core;
use facts::StepFacts;
use following::{Follower, SweepFault};
use origins::Place;
use std::alloc::{AllocError, Global};

/// The machine of a core before its first operation, to be followed. Fails only when out of
/// memory.
pub fn follow(alloc: Global, core: &Core) -> Result<Follower, NoMemory>
    ensures opened { IfOk result (λ follower.
        follower ≡ opening_core core.now.image core.now.limit) }
    ensures fits { length core.now.trace ≤ core.now.limit }
{
    // The clause of `refusal` says that the core keeps within its limit.
    let _refusal = core.refusal(Op::Step(0));
    let image = core.view().image.copy(alloc)?;
    match Follower::boot(alloc, image, core.limit()) {
        Ok(follower) => Ok(follower),
        Err(_) => Err(AllocError),
    }
}

/// A core that takes a run once more, and the facts of its last step.
#[derive(Drop)]
pub(crate) struct Retaken {
    pub follower: Follower,
    pub facts: StepFacts,
}

/// An event that was taken once more, and its facts: those of a step, or the places that a sweep
/// cleared.
#[derive(Drop)]
pub(crate) struct EventAndFacts<'a> {
    pub event: &'a Event,
    pub facts: &'a StepFacts,
    pub places: Vec<Place>,
}

/// Takes a step that is not refused, and fills in its facts.
#[tactic(auto, using(crate::proofs::RunLemmas::steps_taken))]
fn take_step(follower: &mut Follower, facts: &mut StepFacts, hart: u8)
    ensures facts { refused follower.old (operation.Step hart) ≡ None
        → step facts.new ≡ next_facts follower.old (operation.Step hart) }
    ensures after { refused follower.old (operation.Step hart) ≡ None
        → follower.new ≡ core_after follower.old (operation.Step hart) }
{
    let _ = follower.step(hart, facts);
}

/// Takes a sweep that is not refused, and gives the places that it cleared.
#[tactic(auto, using(crate::proofs::RunLemmas::sweep_answered))]
fn take_sweep(
    alloc: Global,
    follower: &mut Follower,
    lo: u64,
    hi: u128,
) -> Result<Vec<Place>, NoMemory>
    ensures places { IfOk result (λ places. refused follower.old (operation.Sweep lo hi) ≡ None
        → sweep places.items ≡ next_facts follower.old (operation.Sweep lo hi)) }
    ensures after { OnOk result (refused follower.old (operation.Sweep lo hi) ≡ None
        → follower.new ≡ core_after follower.old (operation.Sweep lo hi)) }
{
    match follower.sweep(alloc, lo, hi) {
        Ok(places) => Ok(places),
        Err(SweepFault::NoMemory) => Err(AllocError),
        Err(SweepFault::Refused(_)) => Ok(Vec::new(alloc)),
    }
}

/// Takes the operation of an event once more. Fills in the facts of a step, and gives the places
/// that a sweep cleared. Fails only when out of memory.
pub fn take(
    alloc: Global,
    follower: &mut Follower,
    facts: &mut StepFacts,
    event: &Event,
) -> Result<Vec<Place>, NoMemory>
    ensures facts { IfOk result (λ places. refused follower.old (operation_of event.now) ≡ None
        → facts_taken event.now facts.new places.items
        ≡ next_facts follower.old (operation_of event.now)) }
    ensures after { OnOk result (refused follower.old (operation_of event.now) ≡ None
        → follower.new ≡ core_after follower.old (operation_of event.now)) }
{
    match event {
        Event::Step(Entry { hart, .. }) => {
            take_step(follower, facts, *hart);
            Ok(Vec::new(alloc))
        }
        Event::Sweep { lo, hi, .. } => take_sweep(alloc, follower, *lo, *hi),
    }
}
