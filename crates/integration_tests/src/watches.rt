//! One watch, one step, one look; two looks at once; and eight watches.

ghost use Rattle.std.specs.Prelude.{◌≡◌};

use crate::common::{booted, image_of, operation_of, watch_of};
use cheri_model::Op;
use machine::{Blanks, Core, Look, Machine, Naming, Watch, WatchFault};
use samples::FIRST;
use std::alloc::Global;
use std::marker::Brand;
use std::process::Abort;
use std::sync::Wait;
use std::thread;

/// How often a look is tried.
const TRIES: u32 = 1_000_000;

/// The core of the first listing, by copies of its image and of itself.
fn copied_core(rt: &impl Abort, alloc: Global) -> Core {
    let image = image_of(rt, alloc, FIRST.as_bytes());
    let image = image.copy(alloc).expect(rt, "the image is copied");
    let core = Core::boot(alloc, image, 100).expect(rt, "it boots");
    core.copy(alloc).expect(rt, "the core is copied")
}

/// How many granules a copy of a core's memory has.
fn copied_granules(rt: &impl Abort, alloc: Global, core: &Core) -> usize {
    let ram = core.view().ram.copy(alloc);
    ram.expect(rt, "the memory is copied").granule_count()
}

#[test]
fn a_watch_that_learnt_of_a_step_sees_it(rt: HostRuntime) {
    let core = copied_core(&rt, rt.alloc());
    assert!(rt; copied_granules(&rt, rt.alloc(), &core) == 256);
    watched::<Brand, _>(&rt, rt.alloc(), core, Blanks::new());
}

/// A look at a machine whose trace has just so many steps, all of this hart.
pub(crate) fn seen<J: Naming>(
    rt: &impl Abort,
    watch: Watch<J>,
    hart: u8,
    steps: usize,
) -> Watch<J> {
    let look = looked(watch).expect(rt, "a look shows the machine");
    let entries = look.core().view().entries;
    assert!(rt; entries.len() == steps);
    for event in entries {
        assert!(rt; operation_of(event) == Op::Step(hart));
    }
    look.end()
}

/// A watch of a machine; a step of hart 1; the watch learns of it, and looks twice.
fn watched<J: Naming, R: Wait + Abort>(rt: &R, alloc: Global, core: Core, blanks: Blanks)
    requires names { blanks ≡ J.names }
    requires image { core.image ≡ J.image }
{
    let (mut machine, mut shares, sweeper) = Machine::<J>::open(alloc, core, blanks).expect(
        rt, "it opens",
    );
    let watch = watch_of(&mut machine).expect(rt, "there is a place");
    assert!(rt; shares.len() == 2);
    assert!(rt; machine.step(rt, &mut shares[1]).is_ok());
    let watch = seen(rt, watch.learn(machine.receipt()), 1, 1);
    drop(seen(rt, watch, 1, 1));
    let core = machine.close(rt, shares, sweeper);
    assert!(rt; core.view().entries.len() == 1);
}

#[test]
fn two_watches_look_at_once(rt: HostRuntime) {
    let core = booted(&rt, rt.alloc(), FIRST.as_bytes(), 100);
    looked_twice::<Brand, _>(&rt, rt.alloc(), core, Blanks::new());
}

/// Keeps the look of one watch until another watch looks, too.
fn looked_twice<J: Naming, R: Wait + Abort>(rt: &R, alloc: Global, core: Core, blanks: Blanks)
    requires names { blanks ≡ J.names }
    requires image { core.image ≡ J.image }
{
    let (mut machine, shares, sweeper) = Machine::<J>::open(alloc, core, blanks).expect(
        rt, "it opens",
    );
    let first = watch_of(&mut machine).expect(rt, "there is a place");
    let second = watch_of(&mut machine).expect(rt, "there is another place");
    let kept = looked(first).expect(rt, "one of the looks shows the machine");
    let other = looked(second).expect(rt, "the other watch looks, too");
    assert!(rt; kept.core().view().entries.is_empty());
    assert!(rt; other.core().view().entries.is_empty());
    drop(other);
    drop(kept);
    let _core = machine.close(rt, shares, sweeper);
}

#[test]
fn there_are_eight_places(rt: HostRuntime) {
    let core = booted(&rt, rt.alloc(), FIRST.as_bytes(), 100);
    watched_by_eight::<Brand, _>(&rt, rt.alloc(), core, Blanks::new());
}

/// Takes all eight places, each of which looks, and gives one back.
fn watched_by_eight<J: Naming, R: Wait + Abort>(rt: &R, alloc: Global, core: Core, blanks: Blanks)
    requires names { blanks ≡ J.names }
    requires image { core.image ≡ J.image }
{
    let (mut machine, shares, sweeper) = Machine::<J>::open(alloc, core, blanks).expect(
        rt, "it opens",
    );
    let mut watches = Vec::new(alloc);
    for _ in 0..8 {
        let watch = machine.watch().expect(rt, "there is a place");
        watches
            .push(seen(rt, watch, 0, 0))
            .expect(rt, "there is memory");
    }
    for _ in 0..8 {
        assert!(rt; machine.watch().err() == Some(WatchFault::NoPlace));
        drop(watches.pop());
        watches
            .push(machine.watch().expect(rt, "a place was given back"))
            .expect(rt, "there is memory");
    }
    assert!(rt; watches.len() == 8);
    drop(watches);
    let _core = machine.close(rt, shares, sweeper);
}

/// A look of a watch, tried again while there is none.
pub(crate) fn looked<J: Naming>(watch: Watch<J>) -> Option<Look<J>> {
    let mut watch = watch;
    for _ in 0..TRIES {
        match watch.look() {
            Ok(look) => return Some(look),
            Err(back) => watch = back,
        }
        thread::yield_now();
    }
    None
}
