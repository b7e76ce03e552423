//! Runs of orders: refused steps, by number and name, limits, a copy, and PCC at the end of its
//! bounds and of the code.

use crate::common::{ONE, TWO_HARTS, ZERO, entry_at, image_of, ran};
use cheri_model::{Op, Outcome, Trap};
use machine::{BootFault, Core, GREATEST_TRACE_LIMIT, StepFault};
use samples::FIRST;
use std::alloc::Global;
use std::fmt::Display;
use std::process::Abort;

/// How many steps of an order are taken, and where one is refused.
fn end_of(
    rt: &impl Abort,
    alloc: Global,
    listing: &[u8],
    order: &[Op],
    limit: u32,
) -> (usize, Option<(usize, StepFault)>) {
    let (core, refused) = ran(rt, alloc, listing, order, limit);
    (core.view().entries.len(), refused)
}

#[test]
fn orders_are_refused_where_a_step_is(rt: HostRuntime) {
    let first = FIRST.as_bytes();
    let orders: [(&[u8], &[Op], u32, usize, Option<StepFault>); 9] = [
        (
            TWO_HARTS,
            &[ZERO, Op::Step(2)],
            100,
            1,
            Some(StepFault::NoSuchHart),
        ),
        (
            TWO_HARTS,
            &[ZERO, Op::Step(255)],
            1,
            1,
            Some(StepFault::NoSuchHart),
        ),
        (TWO_HARTS, &[ZERO, ONE], 1, 1, Some(StepFault::TraceFull)),
        (TWO_HARTS, &[ZERO; 3], 2, 2, Some(StepFault::TraceFull)),
        (TWO_HARTS, &[ZERO; 3], 3, 2, Some(StepFault::HartStopped)),
        (TWO_HARTS, &[ZERO, ONE, ONE, ZERO], 4, 4, None),
        (first, &[ZERO; 5], 100_000, 4, Some(StepFault::HartStopped)),
        (
            first,
            &[ZERO, Op::Step(2)],
            100_000,
            1,
            Some(StepFault::NoSuchHart),
        ),
        (first, &[ZERO; 2], 1, 1, Some(StepFault::TraceFull)),
    ];
    for (listing, order, limit, taken, fault) in orders {
        let (steps, refused) = end_of(&rt, rt.alloc(), listing, order, limit);
        let expected = match fault {
            Some(fault) => Some((taken, fault)),
            None => None,
        };
        assert!(rt;
            steps == taken && refused == expected,
            "{taken} steps, limit {limit}"
        );
    }
}

/// Whether a fault is printed so.
fn is_printed(rt: &impl Abort, alloc: Global, fault: &impl Display, text: &str) -> bool {
    let printed = format!(in alloc; "{fault}").expect(rt, "there is memory");
    printed.as_str() == text
}

/// Why no core is booted with this limit.
fn boot_fault(rt: &impl Abort, alloc: Global, limit: u32) -> Option<BootFault> {
    Core::boot(alloc, image_of(rt, alloc, TWO_HARTS), limit).err()
}

#[test]
fn refusals_have_numbers_and_names(rt: HostRuntime) {
    let steps = [
        (StepFault::NoSuchHart, 1, "1 NoSuchHart"),
        (StepFault::TraceFull, 2, "2 TraceFull"),
        (StepFault::HartStopped, 3, "3 HartStopped"),
        (StepFault::NoMemory, 4, "4 NoMemory"),
        (StepFault::BadRange, 5, "5 BadRange"),
    ];
    for (fault, number, text) in steps {
        assert!(rt; fault.number() == number, "{text}");
        assert!(rt; is_printed(&rt, rt.alloc(), &fault, text), "{text}");
    }
    let boots = [
        (BootFault::Limit, 1, "1 Limit"),
        (BootFault::NoMemory, 2, "2 NoMemory"),
    ];
    for (fault, number, text) in boots {
        assert!(rt; fault.number() == number, "{text}");
        assert!(rt; is_printed(&rt, rt.alloc(), &fault, text), "{text}");
    }
}

#[test]
fn limits_are_from_one_to_a_hundred_thousand(rt: HostRuntime) {
    assert!(rt; GREATEST_TRACE_LIMIT == 100_000);
    let limits = [
        (0, Some(BootFault::Limit)),
        (1, None),
        (99_999, None),
        (100_000, None),
        (100_001, Some(BootFault::Limit)),
    ];
    for (limit, fault) in limits {
        assert!(rt;
            boot_fault(&rt, rt.alloc(), limit) == fault,
            "limit {limit}"
        );
    }
}

/// Steps these harts in turn, each of which is taken or refused so, and answers how many entries
/// there are then.
fn entries_after(rt: &impl Abort, core: &mut Core, steps: &[(u8, Option<StepFault>)]) -> usize {
    for (hart, fault) in steps {
        assert!(rt; core.step(*hart).err() == *fault);
    }
    core.view().entries.len()
}

/// The core of the two harts after a step of hart 1, with room for three entries.
fn core_after_one(rt: &impl Abort, alloc: Global) -> Core {
    ran(rt, alloc, TWO_HARTS, &[ONE], 3).0
}

#[test]
fn a_copy_steps_by_itself(rt: HostRuntime) {
    let mut core = core_after_one(&rt, rt.alloc());
    let mut copy = core.copy(rt.alloc()).expect(&rt, "there is memory");
    assert!(rt; copy.view().entries == core.view().entries);
    assert!(rt; entries_after(&rt, &mut core, &[(0, None)]) == 2);
    let steps = [
        (1, None),
        (1, Some(StepFault::HartStopped)),
        (0, None),
        (0, Some(StepFault::TraceFull)),
    ];
    assert!(rt; copy.view().entries.len() == 1);
    assert!(rt; entries_after(&rt, &mut copy, &steps) == 3);
}

/// One instruction, and a hart whose PCC reaches just that.
const BOUNDS_END: &[u8] = b".ram 16\n.hart 0x10000000 4 0x10000000 execute\naddi c6, c0, 1\n";

/// The same, where PCC reaches four bytes more.
const CODE_ENDS: &[u8] = b".ram 16\n.hart 0x10000000 8 0x10000000 execute\naddi c6, c0, 1\n";

/// The outcomes of two steps of a listing's hart 0, after which a third is refused.
fn two_outcomes(rt: &impl Abort, alloc: Global, listing: &[u8]) -> [Outcome; 2] {
    let (core, refused) = ran(rt, alloc, listing, &[ZERO; 3], 100);
    assert!(rt; refused == Some((2, StepFault::HartStopped)));
    let entries = core.view().entries;
    assert!(rt; entries.len() == 2);
    [
        entry_at(rt, entries, 0).outcome,
        entry_at(rt, entries, 1).outcome,
    ]
}

#[test]
fn pcc_ends_with_its_bounds_and_with_the_code(rt: HostRuntime) {
    for (listing, cause) in [(BOUNDS_END, Trap::LENGTH), (CODE_ENDS, Trap::FETCH)] {
        let trap = Trap {
            cause,
            reg: Trap::PCC,
        };
        let outcomes = two_outcomes(&rt, rt.alloc(), listing);
        assert!(rt; outcomes == [Outcome::Done, Outcome::Trap(trap)]);
    }
}
