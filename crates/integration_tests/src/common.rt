//! What several modules of these tests use: images, orders and their runs, reports, and a
//! watch that is asked for until it comes.

use cheri_model::{Entry, Event, Image, Op};
use hart_step::View;
use machine::{Core, Machine, Naming, StepFault, Watch, WatchFault, run_order};
use reports::{MemSink, ReportFault, write_json, write_report};
use std::alloc::Global;
use std::process::Abort;
use std::thread;
use texts::read_listing;

/// Two harts that may each run two instructions.
pub(crate) const TWO_HARTS: &[u8] = b".hart 0x10000000 16 0x10000000 execute\n\
.hart 0x10000000 16 0x10000000 execute\naddi c6, c0, 1\necall\n";

/// A step of hart 0.
pub(crate) const ZERO: Op = Op::Step(0);

/// A step of hart 1.
pub(crate) const ONE: Op = Op::Step(1);

/// The image of a listing that is known to be good.
pub(crate) fn image_of(rt: &impl Abort, alloc: Global, listing: &[u8]) -> Image {
    read_listing(alloc, listing).expect(rt, "the listing is good")
}

/// The core of a listing before its first step, with room for this many entries.
pub(crate) fn booted(rt: &impl Abort, alloc: Global, listing: &[u8], limit: u32) -> Core {
    Core::boot(alloc, image_of(rt, alloc, listing), limit).expect(rt, "it boots")
}

/// The core that an order leaves, and where a step of it is refused.
pub(crate) fn ran(
    rt: &impl Abort,
    alloc: Global,
    listing: &[u8],
    order: &[Op],
    limit: u32,
) -> (Core, Option<(usize, StepFault)>) {
    run_order(alloc, image_of(rt, alloc, listing), order, limit).expect(rt, "it boots")
}

/// The two forms of a report.
#[derive(Clone, Copy)]
pub(crate) enum Form {
    Text,
    Json,
}

/// Puts a report of this form on a sink.
pub(crate) fn put(
    alloc: Global,
    view: View<'_>,
    form: Form,
    sink: &mut MemSink,
) -> Result<(), ReportFault> {
    match form {
        Form::Text => write_report(alloc, view, sink),
        Form::Json => write_json(alloc, view, sink),
    }
}

/// The operation of an event.
pub(crate) fn operation_of(event: &Event) -> Op {
    match event {
        Event::Step(entry) => Op::Step(entry.hart),
        Event::Sweep { lo, hi, .. } => Op::Sweep { lo: *lo, hi: *hi },
    }
}

/// The entry of an event that is a step.
fn entry_of(event: &Event) -> Option<Entry> {
    match event {
        Event::Step(entry) => Some(*entry),
        Event::Sweep { .. } => None,
    }
}

/// The entry of the event at a place of a trace, which is a step.
pub(crate) fn entry_at(rt: &impl Abort, events: &[Event], place: usize) -> Entry {
    let event = events.get(place).expect(rt, "the trace has such an event");
    entry_of(event).expect(rt, "the event is a step")
}

/// A watch, asked for at most eight times: each time, no place may be free yet.
pub(crate) fn watch_of<J: Naming>(machine: &mut Machine<J>) -> Option<Watch<J>> {
    for _ in 0..8 {
        match machine.watch() {
            Ok(watch) => return Some(watch),
            Err(WatchFault::NoPlace) => thread::yield_now(),
            Err(WatchFault::NoMemory) => return None,
        }
    }
    None
}

/// Whether two cores show the same image, trace, harts and memory.
pub(crate) fn shows_the_same(one: &Core, other: &Core) -> bool {
    let one = one.view();
    let other = other.view();
    let granules = one.granule_count();
    if one.image != other.image || one.entries != other.entries || one.harts != other.harts {
        return false;
    }
    if other.granule_count() != granules {
        return false;
    }
    for number in 0..granules {
        if one.granule(number) != other.granule(number) {
            return false;
        }
    }
    true
}
