//! Races of real threads, and loops of one thread: harts that meet at a gate and swap one granule,
//! gates that end each hart at each turn, full traces, and eight harts.

ghost use Rattle.std.specs.Prelude.{◌≡◌};

use crate::common::{ONE, ZERO, booted, entry_at, image_of, operation_of, ran, shows_the_same};
use crate::refused_memory::assert_may_refuse;
use cheri_model::{Event, Image, Outcome, Reg, Status, Trap};
use gates::{EndsAt, Meeting, Tally};
use harts::{Calls, Gate, HartReport, RunFault, Shared, Why, hart_loop, run_harts};
use machine::{Blanks, BootFault, Core, Machine, Naming, StepFault, run_order};
use std::alloc::Global;
use std::marker::Brand;
use std::process::Abort;
use std::rt::Env;
use std::sync::Wait;
use std::thread::Threads;
use texts::read_listing;

mod gates;
mod sweeping;
mod viewers;
mod watching;

/// Two harts that swap a value of their own with the same granule: hart 0 the integer 1, hart 1 a
/// capability.
const SWAP: &[u8] = b".hart 0x10000000 16 0x10000000 execute+load\n\
.set c5 cap 0x80000000 16 0x80000000 all\n.set c6 int 1\n\
.hart 0x10000000 16 0x10000000 execute+load\n\
.set c5 cap 0x80000000 16 0x80000000 all\n\
.set c6 cap 0x80000000 16 0x80000000 global+load\n\
amoswap.c c7, c6, c5\necall\n";

/// The word of hart 1's capability.
const CAPABILITY: u128 = 0x0005000004058004_0000000080000000;

/// The lines of a hart like hart 0 of those.
const SWAPPER: &str = ".hart 0x10000000 16 0x10000000 execute+load\n\
.set c5 cap 0x80000000 16 0x80000000 all\n.set c6 int 1\n";

/// The line of a hart with two instructions.
const LOOPER: &str = ".hart 0x10000000 16 0x10000000 execute\n";

/// A listing of eight harts, of these lines each, with these instructions.
fn eight_harts(rt: &impl Abort, alloc: Global, hart: &str, instructions: &str) -> Vec<u8> {
    let mut listing = Vec::new(alloc);
    for part in [hart, hart, hart, hart, hart, hart, hart, hart, instructions] {
        let pushed = listing.extend_from_slice(part.as_bytes());
        pushed.expect(rt, "there is memory");
    }
    listing
}

/// Whether harts run in threads of their own, or one after another in this thread.
#[derive(Clone, Copy, PartialEq, Eq)]
enum Runner {
    Race,
    Loops,
}

/// Runs the harts of a listing, and answers the core that they left and their reports.
fn run<G: Gate + Sync, R: Abort + Threads + Wait + Sync>(
    rt: &R,
    alloc: Global,
    runner: Runner,
    listing: &[u8],
    turns: u32,
    limit: u32,
    gate: &G,
) -> (Core, Vec<HartReport>) {
    match runner {
        Runner::Race => {
            let image = image_of(rt, alloc, listing);
            run_harts(rt, alloc, image, turns, limit, gate).expect(rt, "it runs")
        }
        Runner::Loops => {
            let core = booted(rt, alloc, listing, limit);
            looped::<Brand, G, R>(rt, alloc, core, turns, gate, Blanks::new())
        }
    }
}

/// Runs the loop of each hart of a core, one after another.
fn looped<J: Naming, G: Gate, R: Abort + Wait>(
    rt: &R,
    alloc: Global,
    core: Core,
    turns: u32,
    gate: &G,
    blanks: Blanks,
) -> (Core, Vec<HartReport>)
    requires names { blanks ≡ J.names }
    requires image { core.image ≡ J.image }
{
    let (machine, shares, sweeper) = Machine::<J>::open(alloc, core, blanks).expect(rt, "it opens");
    let shared = Shared::new(machine);
    let mut reports = Vec::new(alloc);
    let mut back = Vec::new(alloc);
    for share in shares {
        let mut calls = Calls::none();
        let (report, share) = hart_loop(rt, &shared, turns, gate, &mut calls, share);
        reports.push(report).expect(rt, "there is memory");
        back.push(share).expect(rt, "there is memory");
    }
    (shared.into_machine().close(rt, back, sweeper), reports)
}

/// Compares a core with the run of its own trace's order on one thread.
fn assert_replayed(rt: &impl Abort, alloc: Global, core: &Core, listing: &[u8], limit: u32) {
    let mut order = Vec::new(alloc);
    for event in core.view().entries {
        order
            .push(operation_of(event))
            .expect(rt, "there is memory");
    }
    let (alone, refused) = ran(rt, alloc, listing, order.as_slice(), limit);
    assert!(rt; refused.is_none());
    assert!(rt; alone.view().ram.bytes() == core.view().ram.bytes());
    assert!(rt; shows_the_same(&alone, core));
}

/// Checks that the trace has, of each of two harts, a swap and then a halt, and that the first of
/// all is this hart's.
fn assert_swaps(rt: &impl Abort, entries: &[Event], first: u8) {
    assert!(rt; entries.len() == (4));
    assert!(rt; entry_at(rt, entries, 0).hart == (first));
    let mut steps = [0u64; 2];
    for place in 0..4 {
        let entry = entry_at(rt, entries, place);
        let hart = usize::from(entry.hart);
        assert!(rt; hart < 2 && steps[hart] < 2);
        assert_eq!(rt; entry.pc, 0x1000_0000 + 4 * steps[hart]);
        let is_swap = steps[hart] == 0;
        assert!(rt;
            entry.outcome
                == if is_swap {
                    Outcome::Done
                } else {
                    Outcome::Halt
                }
        );
        steps[hart] += 1;
    }
}

/// Checks what two swaps leave, where this hart went first.
fn assert_swapped(rt: &impl Abort, core: &Core, first: u8) {
    let view = core.view();
    assert!(rt; view.harts.len() == (2));
    assert!(rt; view.ram.granule_count() > 0);
    let zero = view.harts[0].register(Reg::new(7));
    let one = view.harts[1].register(Reg::new(7));
    let granule = view.ram.granule(0);
    assert_eq!(rt; zero.tag(), first == 1);
    assert!(rt; zero.bits() == (if first == 1 { CAPABILITY } else { 0 }));
    assert!(rt; !one.tag());
    assert!(rt; one.bits() == (if first == 1 { 0 } else { 1 }));
    assert_eq!(rt; granule.tag(), first == 0);
    assert!(rt; granule.bits() == (if first == 1 { 1 } else { CAPABILITY }));
}

/// Checks that both harts of a race have stopped, after two steps each.
fn assert_stopped(rt: &impl Abort, core: &Core, reports: &[HartReport]) {
    assert!(rt; core.view().entries.len() == 4);
    assert!(rt; reports.len() == 2);
    for report in reports {
        assert!(rt; report.steps == 2 && report.why == Why::Stopped);
    }
}

#[test]
fn harts_meet_and_swap_both_ways_round(rt: HostRuntime) {
    for first in [0, 1] {
        let gate = Meeting::new(first);
        let (core, reports) = run(&rt, rt.alloc(), Runner::Race, SWAP, 2, 100, &gate);
        assert!(rt; gate.is_met());
        assert_swaps(&rt, core.view().entries, first);
        assert_swapped(&rt, &core, first);
        assert_stopped(&rt, &core, reports.as_slice());
    }
}

#[test]
fn swaps_happen_in_the_order_of_the_trace(rt: HostRuntime) {
    for (order, first) in [([ZERO, ONE], 0), ([ONE, ZERO], 1)] {
        let (core, _) = ran(&rt, rt.alloc(), SWAP, &order, 100);
        assert_swapped(&rt, &core, first);
    }
    let (core, _) = run(&rt, rt.alloc(), Runner::Race, SWAP, 2, 100, &EndsAt(&[]));
    let entries = core.view().entries;
    assert!(rt; entries.len() == 4);
    assert_swapped(&rt, &core, entry_at(&rt, entries, 0).hart);
}

/// What harts left: how many entries their trace has, how many harts there are, and what the first
/// eight of them did.
#[derive(Clone, Copy)]
struct Left {
    entries: usize,
    harts: usize,
    reports: [HartReport; 8],
}

/// What this many entries and these reports say.
fn left_of(entries: usize, reports: &[HartReport]) -> Left {
    let none = HartReport {
        hart: 0,
        steps: 0,
        why: Why::Gate,
    };
    let mut left = Left {
        entries,
        harts: reports.len(),
        reports: [none; 8],
    };
    for (place, report) in left.reports.iter_mut().zip(reports) {
        *place = *report;
    }
    left
}

/// Runs the harts of a listing, and compares the core that they leave with the run of its trace.
fn replayed<G: Gate + Sync, R: Abort + Threads + Wait + Sync>(
    rt: &R,
    alloc: Global,
    runner: Runner,
    listing: &[u8],
    (turns, limit): (u32, u32),
    gate: &G,
) -> Left {
    let (core, reports) = run(rt, alloc, runner, listing, turns, limit, gate);
    assert_replayed(rt, alloc, &core, listing, limit);
    left_of(core.view().entries.len(), reports.as_slice())
}

/// Checks that harts which a gate ends before these turns have taken as many steps. One that takes
/// two has stopped.
fn assert_ended<R: Abort + Threads + Wait + Sync>(
    rt: &R,
    alloc: Global,
    listing: &[u8],
    ends: &[u32],
) {
    for runner in [Runner::Race, Runner::Loops] {
        let left = replayed(rt, alloc, runner, listing, (3, 100), &EndsAt(ends));
        assert!(rt; left.harts == ends.len());
        let mut steps = 0usize;
        for (report, end) in left.reports.iter().zip(ends) {
            let why = if *end < 2 { Why::Gate } else { Why::Stopped };
            assert!(rt; report.steps == *end && report.why == why);
            steps = steps.saturating_add(*end as usize);
        }
        assert!(rt; left.entries == steps);
    }
}

#[test]
fn harts_are_stopped_at_each_turn(rt: HostRuntime) {
    for zero in 0..3u32 {
        for one in 0..3u32 {
            assert_ended(&rt, rt.alloc(), SWAP, &[zero, one]);
        }
    }
    let listing = eight_harts(&rt, rt.alloc(), SWAPPER, "amoswap.c c7, c6, c5\necall\n");
    assert_ended(
        &rt,
        rt.alloc(),
        listing.as_slice(),
        &[0, 1, 2, 0, 1, 2, 0, 1],
    );
}

/// Two harts that trap at their third instruction, which is past the bounds of their PCC.
const TRAPS: &[u8] = b".hart 0x10000000 8 0x10000000 execute\n\
.hart 0x10000000 8 0x10000000 execute\naddi c6, c0, 1\naddi c6, c6, 1\necall\n";

/// Runs those harts in this many turns: the core that they leave.
fn trapped<R: Abort + Threads + Wait + Sync>(
    rt: &R,
    alloc: Global,
    runner: Runner,
    turns: u32,
) -> Core {
    let gate = Tally::new();
    let (core, reports) = run(rt, alloc, runner, TRAPS, turns, 100, &gate);
    assert!(rt; gate.asked() == 6 && gate.told() == 6);
    assert!(rt; reports.len() == 2);
    for report in reports.as_slice() {
        assert!(rt; report.steps == 3 && report.why == Why::Stopped);
    }
    core
}

/// A trap stops a hart as `ecall` does, in its last turn, too, and the gate is asked no more.
#[test]
fn harts_that_trap_are_stopped(rt: HostRuntime) {
    for runner in [Runner::Race, Runner::Loops] {
        for turns in [3, 5] {
            let core = trapped(&rt, rt.alloc(), runner, turns);
            assert_replayed(&rt, rt.alloc(), &core, TRAPS, 100);
            for hart in core.view().harts {
                assert!(rt; hart.status() == Status::Trapped(Trap { cause: 8, reg: 32 }));
            }
        }
    }
}

/// With room for 3 entries one hart is refused its second turn, with room for 1 both are.
#[test]
fn full_traces_refuse(rt: HostRuntime) {
    let full = Why::Refused(StepFault::TraceFull);
    for runner in [Runner::Race, Runner::Loops] {
        for (limit, most, fewest, why, refused) in [
            (3, 2, 1, Why::Stopped, 1),
            (1, 1, 0, full, 2),
        ] {
            let gate = Tally::new();
            let left = replayed(&rt, rt.alloc(), runner, SWAP, (3, limit), &gate);
            assert!(rt; left.entries == limit as usize && left.harts == 2);
            let (a, b) = (left.reports[0], left.reports[1]);
            let (more, fewer) = if a.steps > b.steps { (a, b) } else { (b, a) };
            assert!(rt; more.steps == most && more.why == why);
            assert!(rt; fewer.steps == fewest && fewer.why == full);
            // the gate is told of each step and of no refusal
            assert!(rt; gate.told() == limit && gate.asked() == limit.saturating_add(refused));
        }
    }
}

#[test]
fn limits_are_refused(rt: HostRuntime) {
    let refused = RunFault::Boot(BootFault::Limit);
    assert!(rt; refused.number() == 1);
    for limit in [0, 100_001] {
        let image = image_of(&rt, rt.alloc(), SWAP);
        let ran = run_harts(&rt, rt.alloc(), image, 3, limit, &EndsAt(&[]));
        assert!(rt; ran.err() == Some(refused));
    }
}

#[test]
fn a_hundred_thousand_steps_are_replayed(rt: HostRuntime) {
    let listing = eight_harts(&rt, rt.alloc(), LOOPER, "addi c6, c6, 1\ncjal c0, @0\n");
    let listing = listing.as_slice();
    let limits = (12_500, 100_000);
    let left = replayed(&rt, rt.alloc(), Runner::Race, listing, limits, &EndsAt(&[]));
    assert!(rt; left.entries == 100_000 && left.harts == 8);
    for report in left.reports {
        assert!(rt; report.steps == 12_500 && report.why == Why::Turns);
    }
}

/// The image of the two harts that swap.
fn swap_image(rt: &(impl Abort + Env), alloc: Global) -> Image {
    match read_listing(alloc, SWAP) {
        Ok(image) => image,
        Err(fault) => {
            assert_may_refuse(rt);
            assert!(rt; fault.kind.number() == (10));
            image_of(rt, alloc, SWAP)
        }
    }
}

/// Whether a good image can be refused so: when out of memory, which a thread needs, too.
fn is_out_of_memory(fault: RunFault) -> bool {
    match fault {
        RunFault::Boot(fault) => fault == BootFault::NoMemory,
        RunFault::Spawn | RunFault::NoMemory => true,
        RunFault::ImageDiffers => false,
    }
}

#[test]
fn refused_run_harts(rt: HostRuntime) {
    let image = swap_image(&rt, rt.alloc());
    let (core, reports) = match run_harts(&rt, rt.alloc(), image, 2, 100, &EndsAt(&[])) {
        Ok(ran) => ran,
        Err(fault) => {
            assert_may_refuse(&rt);
            assert!(rt; is_out_of_memory(fault));
            let image = swap_image(&rt, rt.alloc());
            let again = run_harts(&rt, rt.alloc(), image, 2, 100, &EndsAt(&[]));
            again.expect(&rt, "it is run once more")
        }
    };
    assert_stopped(&rt, &core, reports.as_slice());
    assert_swapped(&rt, &core, entry_at(&rt, core.view().entries, 0).hart);
}
