//! Machines of two harts: their shares step their own harts, as the run of the same order does,
//! watched or not; and refused memory, for a machine, its watch, its steps and a sweep.

ghost use Rattle.std.specs.Prelude.{◌≡◌};

use crate::common::{ONE, TWO_HARTS, ZERO, ran, watch_of};
use crate::refused_memory::{assert_may_refuse, first_image};
use crate::sweeps::SWEEP;
use crate::watches::{looked, seen};
use cheri_model::{Entry, Outcome};
use machine::{
    Blanks, BootFault, Core, Machine, Naming, OpenFault, Share, StepFault, Sweeper, Watch,
    WatchFault,
};
use std::alloc::Global;
use std::marker::Brand;
use std::process::Abort;
use std::rt::Env;
use std::sync::Wait;

/// Opens a machine, watched or not, steps its two harts in this order, until its trace is full, and
/// closes it.
fn stepped<J: Naming, R: Wait + Abort>(
    rt: &R,
    alloc: Global,
    core: Core,
    blanks: Blanks,
    is_watched: bool,
    order: &[usize],
) -> Core
    requires names { blanks ≡ J.names }
    requires image { core.image ≡ J.image }
{
    let (mut machine, mut shares, sweeper) = Machine::<J>::open(alloc, core, blanks).expect(
        rt, "it opens",
    );
    assert!(rt; shares.len() == 2);
    let watch = if is_watched {
        watch_of(&mut machine)
    } else {
        None
    };
    assert!(rt; watch.is_some() == is_watched);
    for hart in order {
        assert!(rt; *hart < shares.len());
        let before = machine.core().view().entries.len();
        let taken = machine.step(rt, &mut shares[*hart]);
        let entry = taken.expect(rt, "the step is taken");
        assert!(rt; usize::from(entry.hart) == *hart);
        assert!(rt; machine.core().view().entries.len() == before + 1);
    }
    let refused = machine.step(rt, &mut shares[0]);
    assert!(rt; refused == Err(StepFault::TraceFull));
    machine.close(rt, shares, sweeper)
}

/// Compares the core that a machine, watched or not, leaves with the run of the same order.
fn compare_with_the_run(rt: &(impl Wait + Abort), alloc: Global, is_watched: bool) {
    let (core, _) = ran(rt, alloc, TWO_HARTS, &[ONE], 4);
    let left = stepped::<Brand, _>(rt, alloc, core, Blanks::new(), is_watched, &[0, 1, 0]);
    let (whole, refused) = ran(rt, alloc, TWO_HARTS, &[ONE, ZERO, ONE, ZERO], 4);
    assert!(rt; refused.is_none());
    assert!(rt; left.view().entries == whole.view().entries);
    assert!(rt; left.view().harts == whole.view().harts);
}

#[test]
fn a_machine_steps_the_hart_of_a_share(rt: HostRuntime) {
    compare_with_the_run(&rt, rt.alloc(), false);
    compare_with_the_run(&rt, rt.alloc(), true);
}

/// The core of the first listing, before its first step.
fn first_core(rt: &(impl Abort + Env), alloc: Global) -> Core {
    match Core::boot(alloc, first_image(rt, alloc), 4) {
        Ok(core) => core,
        Err(fault) => {
            assert_may_refuse(rt);
            assert!(rt; fault == BootFault::NoMemory);
            let image = first_image(rt, alloc);
            Core::boot(alloc, image, 4).expect(rt, "it is booted once more")
        }
    }
}

/// The first watch of a machine.
fn first_watch<J: Naming>(rt: &(impl Abort + Env), machine: &mut Machine<J>) -> Watch<J> {
    match machine.watch() {
        Ok(watch) => watch,
        Err(fault) => {
            assert_may_refuse(rt);
            assert!(rt; fault == WatchFault::NoMemory);
            watch_of(machine).expect(rt, "it is watched once more")
        }
    }
}

/// Checks the entry of a step of hart 0 of the first listing.
fn assert_entry(rt: &impl Abort, entry: Entry, step: u8) {
    assert!(rt; entry.hart == 0);
    assert_eq!(rt; entry.pc, 0x1000_0000 + 4 * u64::from(step));
    let last = step == 3;
    assert!(rt; entry.outcome == if last { Outcome::Halt } else { Outcome::Done });
}

/// Takes the next step of hart 0, once more where it is refused memory, which changes nothing.
fn take_step<J: Naming, R: Wait + Abort + Env>(
    rt: &R,
    machine: &mut Machine<J>,
    share: &mut Share<J>,
    step: u8,
) {
    let mut taken = machine.step(rt, share);
    if taken == Err(StepFault::NoMemory) {
        assert_may_refuse(rt);
        assert!(rt; machine.core().view().entries.len() == usize::from(step));
        taken = machine.step(rt, share);
    }
    assert_entry(rt, taken.expect(rt, "the step is taken"), step);
}

/// Sweeps a machine that has not stepped, once more where it is refused memory, which changes
/// nothing.
fn take_sweep<J: Naming, R: Wait + Abort + Env>(
    rt: &R,
    machine: &mut Machine<J>,
    sweeper: &mut Sweeper<J>,
) {
    let mut swept = machine.sweep(rt, sweeper, 0x8000_0000, 0x8000_0001);
    if swept == Err(StepFault::NoMemory) {
        assert_may_refuse(rt);
        assert!(rt; machine.core().view().entries.is_empty());
        swept = machine.sweep(rt, sweeper, 0x8000_0000, 0x8000_0001);
    }
    assert!(rt; swept == Ok(SWEEP));
}

/// Checks that a watch, if there is one, shows a machine whose trace is that sweep alone, if it was
/// swept.
fn assert_sweep_seen<J: Naming>(rt: &impl Abort, watch: Option<Watch<J>>, is_swept: bool) {
    let Some(watch) = watch else {
        return;
    };
    let look = looked(watch).expect(rt, "a look shows the machine");
    let entries = look.core().view().entries;
    assert!(rt; !is_swept || entries == [SWEEP].as_slice());
}

/// What a machine of the first listing goes through between its opening and its closing: whether it
/// is watched, the first steps of its hart 0, and whether it is swept then.
#[derive(Clone, Copy)]
struct Scene {
    is_watched: bool,
    steps: u8,
    is_swept: bool,
}

/// Opens a machine of the first listing, plays a scene, and closes it. A watch looks after each
/// step: whatever was refused, a look shows all that were taken.
fn play<J: Naming, R: Wait + Abort + Env>(
    rt: &R,
    alloc: Global,
    core: Core,
    blanks: Blanks,
    scene: Scene,
) -> Result<Core, OpenFault>
    requires names { blanks ≡ J.names }
    requires image { core.image ≡ J.image }
{
    let (mut machine, mut shares, mut sweeper) = Machine::<J>::open(alloc, core, blanks)?;
    let mut watch = if scene.is_watched {
        Some(seen(rt, first_watch(rt, &mut machine), 0, 0))
    } else {
        None
    };
    for step in 0..scene.steps {
        assert!(rt; shares.len() == 2);
        take_step(rt, &mut machine, &mut shares[0], step);
        watch = match watch {
            Some(watch) => Some(seen(rt, watch, 0, usize::from(step) + 1)),
            None => None,
        };
    }
    if scene.is_swept {
        take_sweep(rt, &mut machine, &mut sweeper);
    }
    assert_sweep_seen(rt, watch, scene.is_swept);
    Ok(machine.close(rt, shares, sweeper))
}

/// Plays a scene on a new machine of the first listing.
fn play_once(
    rt: &(impl Wait + Abort + Env),
    alloc: Global,
    scene: Scene,
) -> Result<Core, OpenFault> {
    let core = first_core(rt, alloc);
    play::<Brand, _>(rt, alloc, core, Blanks::new(), scene)
}

/// The same, where a machine that is refused memory is opened once more.
fn try_scene(rt: &(impl Wait + Abort + Env), alloc: Global, scene: Scene) {
    let left = match play_once(rt, alloc, scene) {
        Ok(left) => left,
        Err(fault) => {
            assert_may_refuse(rt);
            assert!(rt; fault.number() == 1);
            play_once(rt, alloc, scene).expect(rt, "it is opened once more")
        }
    };
    let events = usize::from(scene.steps) + usize::from(scene.is_swept);
    assert!(rt; left.view().entries.len() == events);
}

/// A scene of this many steps, with no sweep.
fn steps(is_watched: bool, steps: u8) -> Scene {
    Scene {
        is_watched,
        steps,
        is_swept: false,
    }
}

#[test]
fn refused_open(rt: HostRuntime) {
    try_scene(&rt, rt.alloc(), steps(false, 0));
}

#[test]
fn refused_watch(rt: HostRuntime) {
    try_scene(&rt, rt.alloc(), steps(true, 0));
}

#[test]
fn refused_step(rt: HostRuntime) {
    try_scene(&rt, rt.alloc(), steps(false, 4));
}

#[test]
fn refused_watched_step(rt: HostRuntime) {
    try_scene(&rt, rt.alloc(), steps(true, 4));
}

#[test]
fn refused_watched_sweep(rt: HostRuntime) {
    let scene = Scene {
        is_watched: true,
        steps: 0,
        is_swept: true,
    };
    try_scene(&rt, rt.alloc(), scene);
}
