//! Sweeps of cores and of machines: ranges that are refused, and a sweep of a machine, watched or
//! not.

ghost use Rattle.std.specs.Prelude.{◌≡◌};

use crate::common::{booted, entry_at, watch_of};
use crate::watches::looked;
use cheri_model::Event;
use machine::{Blanks, Core, Machine, Naming, Receipt, StepFault, Sweeper, Watch};
use samples::FIRST;
use std::alloc::Global;
use std::marker::Brand;
use std::process::Abort;
use std::sync::Wait;

/// The end of the address space.
const END: u128 = 1 << 64;

/// The sweep of the two data capabilities of the first listing.
pub(crate) const SWEEP: Event = Event::Sweep {
    lo: 0x8000_0000,
    hi: 0x8000_0001,
    cleared: 2,
};

#[test]
fn bad_ranges_are_refused_before_full_traces(rt: HostRuntime) {
    let mut core = booted(&rt, rt.alloc(), FIRST.as_bytes(), 1);
    let sweeps = [
        (
            "an end below the beginning",
            2,
            1,
            0,
            Some(StepFault::BadRange),
        ),
        (
            "an end past the address space",
            0,
            END + 1,
            0,
            Some(StepFault::BadRange),
        ),
        (
            "from the last address to 0",
            u64::MAX,
            0,
            0,
            Some(StepFault::BadRange),
        ),
        ("the last address", u64::MAX, END, 1, None),
        (
            "a bad range where the trace is full",
            2,
            1,
            1,
            Some(StepFault::BadRange),
        ),
        ("a good one", 0, 0, 1, Some(StepFault::TraceFull)),
    ];
    for (why, lo, hi, entries, fault) in sweeps {
        assert!(rt; core.sweep(lo, hi).err() == fault, "{why}");
        assert!(rt; core.view().entries.len() == entries, "{why}");
    }
    assert!(rt; core.step(0) == Err(StepFault::TraceFull));
}

/// Checks that a watch shows hart 0's step and the sweep, once it learns of both.
fn assert_swept<J: Naming>(
    rt: &impl Abort,
    watch: Watch<J>,
    before: Receipt<J>,
    after: Receipt<J>,
) {
    let look = looked(watch.learn(after).learn(before));
    let look = look.expect(rt, "one of the looks shows the machine");
    let events = look.core().view().entries;
    assert!(rt; events.len() == 2);
    assert!(rt; entry_at(rt, events, 0).hart == 0);
    assert!(rt; events.get(1) == Some(&SWEEP));
}

/// Sweeps a machine: a range that is bad, and the data.
fn sweep_twice<J: Naming, R: Wait + Abort>(
    rt: &R,
    machine: &mut Machine<J>,
    sweeper: &mut Sweeper<J>,
) {
    let sweeps = [
        (2, 1, Err(StepFault::BadRange)),
        (0x8000_0000, 0x8000_0001, Ok(SWEEP)),
    ];
    for (lo, hi, swept) in sweeps {
        assert!(rt; machine.sweep(rt, sweeper, lo, hi) == swept);
    }
}

/// A machine of the first listing, watched or not: a step, a sweep that two receipts stand round,
/// and another step.
fn swept<J: Naming, R: Wait + Abort>(
    rt: &R,
    alloc: Global,
    core: Core,
    blanks: Blanks,
    is_watched: bool,
)
    requires names { blanks ≡ J.names }
    requires image { core.image ≡ J.image }
{
    let (mut machine, mut shares, mut sweeper) = Machine::<J>::open(alloc, core, blanks).expect(
        rt, "it opens",
    );
    assert!(rt; shares.len() == 2);
    let watch = if is_watched {
        watch_of(&mut machine)
    } else {
        None
    };
    assert!(rt; watch.is_some() == is_watched);
    assert!(rt; machine.step(rt, &mut shares[0]).is_ok());
    let before = machine.receipt();
    sweep_twice(rt, &mut machine, &mut sweeper);
    let after = machine.receipt();
    if let Some(watch) = watch {
        assert_swept(rt, watch, before, after);
    }
    assert!(rt; machine.step(rt, &mut shares[1]).is_ok());
    assert!(rt; machine.sweep(rt, &mut sweeper, 0, 0) == Err(StepFault::TraceFull));
    let core = machine.close(rt, shares, sweeper);
    assert!(rt; core.view().entries.len() == 3);
}

/// Sweeps a new machine of the first listing.
fn sweep_a_machine(rt: &(impl Wait + Abort), alloc: Global, is_watched: bool) {
    let core = booted(rt, alloc, FIRST.as_bytes(), 3);
    swept::<Brand, _>(rt, alloc, core, Blanks::new(), is_watched);
}

#[test]
fn machines_are_swept_watched_or_not(rt: HostRuntime) {
    sweep_a_machine(&rt, rt.alloc(), false);
    sweep_a_machine(&rt, rt.alloc(), true);
}
