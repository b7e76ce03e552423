//! A run that is taken up to one of its events.

ghost use Rattle.std.specs.Prelude.{◌≡◌, IfOk, OnOk, None, take};
ghost use Rattle.cheri_model.specs.declared.operation.Op.TheVariants as operation;
ghost use Rattle.cheri_model.specs.runs.Replay.{operation_of, operations_of, replayed_state};
ghost use Rattle.cores.specs.Cores.{refused, core_after};
ghost use Rattle.origins.specs.Origins.{replayed_origins};
ghost use Rattle.following.specs.Following.{origins_now};

use cheri_model::{Entry, Event, NoMemory};
use cores::Core;
use explanations::follow;
use facts::StepFacts;
use following::{Follower, SweepFault};
use std::alloc::{AllocError, Global};

/// Takes a step once more.
#[tactic(auto, using(explanations::proofs::RunLemmas::step_applied))]
fn take_step(follower: &mut Follower, hart: u8)
    ensures { refused follower.old (operation.Step hart) ≡ None
        → follower.new ≡ core_after follower.old (operation.Step hart) }
{
    let mut facts = StepFacts::blank();
    let _ = follower.step(hart, &mut facts);
}

/// Takes a sweep once more.
fn take_sweep(alloc: Global, follower: &mut Follower, lo: u64, hi: u128) -> Result<(), NoMemory>
    ensures { OnOk result (refused follower.old (operation.Sweep lo hi) ≡ None
        → follower.new ≡ core_after follower.old (operation.Sweep lo hi)) }
{
    match follower.sweep(alloc, lo, hi) {
        Ok(_) => Ok(()),
        Err(SweepFault::NoMemory) => Err(AllocError),
        Err(SweepFault::Refused(_)) => Ok(()),
    }
}

/// Takes the operation of an event once more.
fn take_event(alloc: Global, follower: &mut Follower, event: &Event) -> Result<(), NoMemory>
    ensures { OnOk result (refused follower.old (operation_of event.now) ≡ None
        → follower.new ≡ core_after follower.old (operation_of event.now)) }
{
    match event {
        Event::Step(Entry { hart, .. }) => {
            take_step(follower, *hart);
            Ok(())
        }
        Event::Sweep { lo, hi, .. } => take_sweep(alloc, follower, *lo, *hi),
    }
}

/// The machine of a core after its first `count` operations, or after all of them, followed from
/// the opening on. Fails only when out of memory.
pub fn follow_to(alloc: Global, core: &Core, count: usize) -> Result<Follower, NoMemory>
    ensures state { IfOk result (λ follower. follower.state
        ≡ replayed_state core.now.image (take count (operations_of core.now.trace))) }
    ensures origins { IfOk result (λ follower. origins_now follower
        ≡ replayed_origins core.now.image (take count (operations_of core.now.trace))) }
{
    let view = core.view();
    let mut follower = follow(alloc, core)?;
    let last = count.min(view.entries.len());
    for event in &view.entries[..last] {
        take_event(alloc, &mut follower, event)?;
    }
    Ok(follower)
}
