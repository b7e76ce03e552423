//! Reports: each word that one has, by a machine that no run leaves; runs shown as JSON; and sinks
//! and writers that take little and fail.

mod expected;
mod pieces;

use crate::common::{Form, ZERO, booted, put, ran};
use cap_ops::Cap;
use cheri_model::{Entry, Event, Op, Outcome, Reg, Status, Trap};
use expected::{HALTED_JSON, SWEPT_JSON, SWEPT_LAST_JSON, WORDS, WORDS_JSON};
use hart_step::{Hart, View};
use machine::Core;
use reports::{MemSink, report_json};
use samples::{ALL, FIRST, Given, K, hart_at, perms};
use std::alloc::Global;
use std::process::Abort;

/// A trap of `cinvoke`.
const INVOKE: Trap = Trap { cause: 13, reg: 31 };

/// The event of a step of a hart.
fn step(hart: u8, pc: u64, outcome: Outcome) -> Event {
    Event::Step(Entry { hart, pc, outcome })
}

/// Steps with every outcome.
fn four_steps() -> [Event; 4] {
    [
        step(2, 0x1000_0000, Outcome::Done),
        step(0, u64::MAX, Outcome::Trap(INVOKE)),
        step(1, 0x1000_0004, Outcome::Trap(Trap { cause: 8, reg: 32 })),
        step(0, 0, Outcome::Halt),
    ]
}

/// Three harts, and memory with an untagged granule and a tagged one.
const MEMORY: &[u8] = b".ram 48\n\
.bytes 0x80000000 000000800000000004aa050400000500\n\
.cap 0x80000020 0x80000000 16 0x80000000 global+load\n\
.hart 0 16 0 none\n.hart 0 16 0 none\n.hart 0 16 0 none\necall\n";

/// The capability of 16 bytes with all permissions, sealed with a type.
fn sealed(rt: &impl Abort, otype: u64) -> Cap {
    let given = Given::Sealed(0x8000_0000, 16, 0x8000_0000, ALL, otype);
    given.cap().expect(rt, "there is such a capability")
}

/// A hart with this PCC, these values in registers, and this status.
fn hart_with(pcc: Cap, values: &[(Reg, Cap)], status: Status) -> Hart {
    let mut hart = hart_at(pcc);
    for (register, value) in values {
        hart.put(*register, *value);
    }
    hart.set_status(status);
    hart
}

/// A trapped, a halted and a running hart, with every form of value.
fn three_harts(rt: &impl Abort) -> [Hart; 3] {
    let open = K.cap().expect(rt, "there is such a capability");
    let of_all = Cap::root(perms(0));
    let word = Cap::from_word(0xFFFF_FFFF_FFFF_FFFF_0000_0000_0000_0001);
    let trapped = [(Reg::new(1), of_all), (Reg::new(31), sealed(rt, 262_139))];
    let running = [(Reg::new(2), sealed(rt, 0)), (Reg::new(9), word)];
    [
        hart_with(Cap::null(), &trapped, Status::Trapped(INVOKE)),
        hart_with(open.seal_entry(), &[], Status::Halted),
        hart_with(open, &running, Status::Running),
    ]
}

/// The memory and the image of a core, with these events and harts.
fn shown<'a>(core: &'a Core, entries: &'a [Event], harts: &'a [Hart]) -> View<'a> {
    View {
        image: core.view().image,
        entries,
        harts,
        ram: core.view().ram,
    }
}

/// Whether a report of this form, put on a sink, is this text.
fn is_put(alloc: Global, view: View<'_>, form: Form, text: &[u8]) -> bool {
    let mut sink = MemSink::new(alloc, 0, 4096);
    put(alloc, view, form, &mut sink) == Ok(()) && sink.bytes() == text
}

/// Whether a machine is shown as this JSON, which is made in one piece.
fn is_shown(alloc: Global, view: View<'_>, text: &str) -> bool {
    match report_json(alloc, view) {
        Ok(shown) => shown.as_str() == text,
        Err(_) => false,
    }
}

#[test]
fn every_word_is_written(rt: HostRuntime) {
    let (steps, harts) = (four_steps(), three_harts(&rt));
    let core = booted(&rt, rt.alloc(), MEMORY, 1);
    let view = shown(&core, &steps, &harts);
    assert!(rt; is_put(rt.alloc(), view, Form::Text, WORDS));
    assert!(rt; is_put(rt.alloc(), view, Form::Json, WORDS_JSON.as_bytes()));
    assert!(rt; is_shown(rt.alloc(), view, WORDS_JSON));
}

/// Whether what an order leaves of a listing is shown as this JSON.
fn is_run_shown(rt: &impl Abort, alloc: Global, listing: &[u8], order: &[Op], text: &str) -> bool {
    let (core, _) = ran(rt, alloc, listing, order, 100);
    is_shown(alloc, core.view(), text)
}

/// A hart that halts at its first instruction.
const HALTS: &[u8] = b".ram 16\n.hart 0x10000000 4 0x10000000 execute\necall\n";

/// The sweep of the first listing's data.
const DATA: Op = Op::Sweep {
    lo: 0x8000_0000,
    hi: 0x8000_0001,
};

/// The sweep of the whole address space.
const ALL_ADDRESSES: Op = Op::Sweep { lo: 0, hi: 1 << 64 };

#[test]
fn runs_are_shown_as_json(rt: HostRuntime) {
    let first = FIRST.as_bytes();
    let runs: [(&[u8], &[Op], &str); 3] = [
        (HALTS, &[ZERO], HALTED_JSON),
        (first, &[ZERO, ZERO, DATA, ZERO], SWEPT_JSON),
        (first, &[ZERO, ALL_ADDRESSES], SWEPT_LAST_JSON),
    ];
    for (listing, order, text) in runs {
        assert!(rt;
            is_run_shown(&rt, rt.alloc(), listing, order, text),
            "{text}"
        );
    }
}
