//! Watches and viewers beside real threads: looks while the lock is held, looks that begin with
//! earlier looks, a viewer beside the race, and a look that is kept.

ghost use Rattle.std.specs.Prelude.{◌≡◌};

use super::gates::{EndsAt, Flag};
use super::viewers::{Follower, Keeper, Kept, Spotter, Viewed, look_of};
use super::{LOOPER, SWAP, assert_replayed, assert_stopped, eight_harts};
use crate::common::{booted, image_of};
use harts::{Gate, HartReport, Shared, Viewer, run_watched};
use machine::{Blanks, Core, Machine, Naming, Watch};
use std::alloc::Global;
use std::marker::Brand;
use std::process::Abort;
use std::sync::Wait;
use std::thread;
use std::thread::Threads;

/// How often a watch is asked for: each time, none may be there.
const TRIES: u32 = 8;

/// What two threads share: one holds the lock, while the other looks.
#[derive(Drop)]
struct Desk<'a, J: Naming, R> {
    rt: &'a R,
    shared: &'a Shared<J>,
    held: Flag,
    looked: Flag,
}

impl<J: Naming, R: Wait> Desk<'_, J, R> {
    /// Holds the lock until the other thread has looked, and answers whether it has.
    fn hold(&self) -> bool {
        let _guard = self.shared.lock(self.rt);
        self.held.set();
        self.looked.comes()
    }

    /// Looks once the lock is held, and answers whether there was a look.
    fn look(&self, watch: Watch<J>) -> bool {
        let is_held = self.held.comes();
        let is_shown = look_of(watch).is_ok();
        self.looked.set();
        is_held && is_shown
    }
}

/// A watch of a shared machine, asked for at most eight times.
fn watch_of<J: Naming, R: Wait>(rt: &R, shared: &Shared<J>) -> Option<Watch<J>> {
    for _ in 0..TRIES {
        if let Ok(watch) = shared.watch(rt) {
            return Some(watch);
        }
    }
    None
}

/// Holds the lock in one thread, and looks in another. Answers whether both saw the other's part.
fn hold_and_look<J: Naming + Send + Sync, R: Threads + Wait + Sync>(
    rt: &R,
    shared: &Shared<J>,
    watch: Watch<J>,
) -> bool {
    let desk = Desk {
        rt,
        shared,
        held: Flag::new(),
        looked: Flag::new(),
    };
    let (is_held, is_shown) = thread::join(rt, || desk.hold(), || desk.look(watch));
    is_held && is_shown
}

/// Looks at a machine in one thread while another holds its lock.
fn look_beside_the_lock<J: Naming + Send + Sync, R: Abort + Threads + Wait + Sync>(
    rt: &R,
    alloc: Global,
    core: Core,
    blanks: Blanks,
)
    requires names { blanks ≡ J.names }
    requires image { core.image ≡ J.image }
{
    let (machine, shares, sweeper) = Machine::<J>::open(alloc, core, blanks).expect(rt, "it opens");
    let shared = Shared::new(machine);
    let watch = watch_of(rt, &shared).expect(rt, "there is a place");
    assert!(rt; hold_and_look(rt, &shared, watch));
    let _core = shared.into_machine().close(rt, shares, sweeper);
}

#[test]
fn a_watch_looks_while_the_lock_is_held(rt: HostRuntime) {
    let core = booted(&rt, rt.alloc(), SWAP, 100);
    look_beside_the_lock::<Brand, _>(&rt, rt.alloc(), core, Blanks::new());
}

/// Races the harts of a listing while a viewer looks on.
fn view_race<G: Gate + Sync, V: Viewer, R: Abort + Threads + Wait + Sync>(
    rt: &R,
    alloc: Global,
    listing: &[u8],
    turns: u32,
    gate: &G,
    viewer: &mut V,
) -> (Core, Vec<HartReport>) {
    let image = image_of(rt, alloc, listing);
    run_watched(rt, alloc, image, turns, 100_000, gate, viewer).expect(rt, "it runs")
}

/// Whether a viewer that looks on at a race of eight harts is called. Each of its looks begins with
/// the one before, and the last shows the whole race.
fn is_followed<R: Abort + Threads + Wait + Sync>(rt: &R, alloc: Global, listing: &[u8]) -> bool {
    let mut viewer = Follower::new(alloc, 2_000);
    let (core, reports) = view_race(rt, alloc, listing, 250, &EndsAt(&[]), &mut viewer);
    assert_replayed(rt, alloc, &core, listing, 100_000);
    assert!(rt; core.view().entries.len() == 2_000);
    assert!(rt; reports.len() == 8);
    assert!(rt; !viewer.was_called || viewer.saw_all);
    assert!(rt; !viewer.went_back && !viewer.had_no_memory);
    viewer.was_called
}

#[test]
fn looks_begin_with_earlier_looks(rt: HostRuntime) {
    let listing = eight_harts(&rt, rt.alloc(), LOOPER, "addi c6, c6, 1\ncjal c0, @0\n");
    for _ in 0..TRIES {
        if is_followed(&rt, rt.alloc(), listing.as_slice()) {
            return;
        }
    }
    panic!(rt; "a watch is given in one of eight races");
}

/// Whether a viewer is called that looks on at a race in which each hart waits before its second
/// turn until the viewer has seen a step.
fn is_seen<R: Abort + Threads + Wait + Sync>(rt: &R, alloc: Global) -> bool {
    let gate = Viewed::new();
    let mut viewer = Spotter {
        gate: &gate,
        was_called: false,
    };
    let (core, reports) = view_race(rt, alloc, SWAP, 2, &gate, &mut viewer);
    if viewer.was_called {
        assert!(rt; gate.step_seen.is_set() && !gate.gave_up.is_set());
        assert_stopped(rt, &core, reports.as_slice());
    }
    viewer.was_called
}

#[test]
fn a_viewer_looks_beside_the_race(rt: HostRuntime) {
    for _ in 0..TRIES {
        if is_seen(&rt, rt.alloc()) {
            return;
        }
    }
    panic!(rt; "a watch is given in one of eight races");
}

/// Whether a viewer is called that keeps a look while a hart steps.
fn is_kept<R: Abort + Threads + Wait + Sync>(rt: &R, alloc: Global) -> bool {
    let gate = Kept::new();
    let mut viewer = Keeper::new(alloc, &gate);
    let (core, reports) = view_race(rt, alloc, SWAP, 2, &gate, &mut viewer);
    if viewer.was_called {
        assert!(rt; viewer.was_kept && !viewer.has_changed && !gate.gave_up.is_set());
        assert_stopped(rt, &core, reports.as_slice());
    }
    viewer.was_called
}

#[test]
fn a_kept_look_stays_as_it_is(rt: HostRuntime) {
    for _ in 0..TRIES {
        if is_kept(&rt, rt.alloc()) {
            return;
        }
    }
    panic!(rt; "a watch is given in one of eight races");
}
