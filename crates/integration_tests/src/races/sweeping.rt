//! Two harts that race while a third thread sweeps their machine once.

ghost use Rattle.std.specs.Prelude.{◌≡◌};

use super::gates::EndsAt;
use super::{SWAP, assert_replayed};
use crate::common::booted;
use cheri_model::Event;
use harts::{Calls, HartReport, Shared, hart_loop};
use machine::{Blanks, Core, Machine, Naming, Share, StepFault, Sweeper};
use std::alloc::Global;
use std::marker::Brand;
use std::process::Abort;
use std::sync::Wait;
use std::thread;
use std::thread::Threads;

/// The loops of two harts, each in a thread of its own.
fn both_loops<J: Naming + Send + Sync, R: Threads + Wait + Sync>(
    rt: &R,
    shared: &Shared<J>,
    zero: Share<J>,
    one: Share<J>,
) -> ((HartReport, Share<J>), (HartReport, Share<J>)) {
    let gate = EndsAt(&[]);
    thread::join(
        rt,
        || hart_loop(rt, shared, 2, &gate, &mut Calls::none(), zero),
        || hart_loop(rt, shared, 2, &gate, &mut Calls::none(), one),
    )
}

/// Sweeps the granule's capabilities.
fn sweep<J: Naming, R: Wait>(
    rt: &R,
    shared: &Shared<J>,
    sweeper: Sweeper<J>,
) -> (Result<Event, StepFault>, Sweeper<J>) {
    let mut sweeper = sweeper;
    let swept = shared.sweep(rt, &mut sweeper, 0x8000_0000, 0x8000_0001);
    (swept, sweeper)
}

/// How many events are steps of a hart, and how many are sweeps.
fn counted(core: &Core, hart: u8) -> (u32, u32) {
    let (mut steps, mut sweeps) = (0u32, 0u32);
    for event in core.view().entries {
        match event {
            Event::Step(entry) if entry.hart == hart => steps = steps.saturating_add(1),
            Event::Step(_) => {}
            Event::Sweep { .. } => sweeps = sweeps.saturating_add(1),
        }
    }
    (steps, sweeps)
}

/// Races both harts of a core while a third thread sweeps: the core that they leave.
fn swept_race<J: Naming + Send + Sync, R: Abort + Threads + Wait + Sync>(
    rt: &R,
    alloc: Global,
    core: Core,
    blanks: Blanks,
) -> Core
    requires names { blanks ≡ J.names }
    requires image { core.image ≡ J.image }
{
    let (machine, mut shares, sweeper) = Machine::<J>::open(alloc, core, blanks).expect(
        rt, "it opens",
    );
    let shared = Shared::new(machine);
    let one = shares.pop().expect(rt, "hart 1 has a share");
    let zero = shares.pop().expect(rt, "hart 0 has a share");
    let ((swept, sweeper), (first, second)) = thread::join(
        rt,
        || sweep(rt, &shared, sweeper),
        || both_loops(rt, &shared, zero, one),
    );
    assert!(rt; swept.is_ok());
    shares.push(first.1).expect(rt, "there is memory");
    shares.push(second.1).expect(rt, "there is memory");
    let core = shared.into_machine().close(rt, shares, sweeper);
    assert_eq!(rt; counted(&core, 0), (first.0.steps, 1));
    assert_eq!(rt; counted(&core, 1), (second.0.steps, 1));
    core
}

#[test]
fn a_third_thread_sweeps_once(rt: HostRuntime) {
    let core = booted(&rt, rt.alloc(), SWAP, 100);
    let core = swept_race::<Brand, _>(&rt, rt.alloc(), core, Blanks::new());
    assert_replayed(&rt, rt.alloc(), &core, SWAP, 100);
}
