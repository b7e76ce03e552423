//! Refused memory, in each call that takes memory, on the first worked run. A call that is refused
//! memory says so by the name of that refusal, and the same call once more answers as where nothing
//! is refused. So one that always says that there is no memory fails in every run, and one that
//! sometimes does fails where nothing is refused.
//!
//! `.ci/refuse` runs each test whose name begins with `refused_` under an allocator that refuses
//! its N-th allocation, for N = 1, 2, .. until there are no more. It sets the variable `REFUSE`.

use crate::common::{Form, ZERO, entry_at, put};
use cheri_model::{Image, Outcome, Status};
use hart_step::View;
use machine::{BootFault, Core, SimFault, run_order, simulate};
use reports::{MemSink, ReportFault, report_json};
use samples::{FIRST, FIRST_JSON, FIRST_REPORT};
use std::alloc::Global;
use std::process::Abort;
use std::rt::Env;
use tagged_mem::{MemFault, Ram};
use texts::{OrderFaultKind, read_listing, read_order, write_listing};

/// The number of a listing's refusal when out of memory.
const LISTING_NO_MEMORY: u8 = 10;

/// Checks that this run may refuse memory: a call has said that there was none.
pub(crate) fn assert_may_refuse(rt: &(impl Abort + Env)) {
    let mut value = [0; 64];
    assert!(rt;
        rt.var("REFUSE", &mut value).is_ok(),
        "no memory where none was refused"
    );
}

/// The image of the first listing.
pub(crate) fn first_image(rt: &(impl Abort + Env), alloc: Global) -> Image {
    match read_listing(alloc, FIRST.as_bytes()) {
        Ok(image) => image,
        Err(fault) => {
            assert_may_refuse(rt);
            assert!(rt; fault.line == 0);
            assert!(rt; fault.kind.number() == LISTING_NO_MEMORY);
            read_listing(alloc, FIRST.as_bytes()).expect(rt, "it is read once more")
        }
    }
}

/// The core after hart 0's four steps.
fn first_core(rt: &(impl Abort + Env), alloc: Global) -> Core {
    let order = [ZERO; 4];
    let (core, refused) = match run_order(alloc, first_image(rt, alloc), &order, 100_000) {
        Ok(ran) => ran,
        Err(fault) => {
            assert_may_refuse(rt);
            assert!(rt; fault == BootFault::NoMemory);
            let image = first_image(rt, alloc);
            run_order(alloc, image, &order, 100_000).expect(rt, "it is run once more")
        }
    };
    assert!(rt; refused.is_none());
    core
}

#[test]
fn refused_read_listing(rt: HostRuntime) {
    let image = first_image(&rt, rt.alloc());
    assert!(rt; image.harts().len() == 2);
    assert!(rt; image.program().len() == 4);
    assert!(rt; image.ram() == 4096);
}

#[test]
fn refused_write_listing(rt: HostRuntime) {
    let image = first_image(&rt, rt.alloc());
    let text = match write_listing(rt.alloc(), &image) {
        Ok(text) => text,
        Err(_) => {
            assert_may_refuse(&rt);
            write_listing(rt.alloc(), &image).expect(&rt, "it is written once more")
        }
    };
    assert!(rt; text.strip_prefix(".ram 4096\n") == Some(FIRST));
}

#[test]
fn refused_read_order(rt: HostRuntime) {
    let order = match read_order(rt.alloc(), b"0000") {
        Ok(order) => order,
        Err(fault) => {
            assert_may_refuse(&rt);
            assert!(rt; fault.offset == 0);
            assert!(rt; fault.kind == OrderFaultKind::NoMemory);
            read_order(rt.alloc(), b"0000").expect(&rt, "it is read once more")
        }
    };
    assert!(rt; order.as_slice() == [ZERO; 4].as_slice());
}

#[test]
fn refused_ram_new(rt: HostRuntime) {
    let ram = match Ram::new(rt.alloc(), 16) {
        Ok(ram) => ram,
        Err(fault) => {
            assert_may_refuse(&rt);
            assert!(rt; fault == MemFault::NoMemory);
            Ram::new(rt.alloc(), 16).expect(&rt, "it is made once more")
        }
    };
    assert!(rt; ram.granule_count() == 1);
    assert!(rt; !ram.granule(0).tag());
    assert!(rt; ram.granule(0).bits() == 0);
}

#[test]
fn refused_run_order(rt: HostRuntime) {
    let core = first_core(&rt, rt.alloc());
    let view = core.view();
    assert!(rt; view.entries.len() == 4);
    let last = entry_at(&rt, view.entries, 3);
    assert!(rt; last.pc == 0x1000_000C);
    assert!(rt; last.outcome == Outcome::Halt);
    assert!(rt; view.harts.len() == 2);
    assert!(rt; view.harts[0].status() == Status::Halted);
    assert!(rt; view.harts[1].status() == Status::Running);
}

/// Whether a report of this form is put whole on a sink that takes seven bytes at a time, where
/// memory may be refused: then a prefix of it is. A put that finds no memory fails.
fn is_put(rt: &(impl Abort + Env), alloc: Global, view: View<'_>, form: Form) -> bool {
    let report = match form {
        Form::Text => FIRST_REPORT,
        Form::Json => FIRST_JSON.as_bytes(),
    };
    let mut sink = MemSink::new(alloc, 0, 7);
    match put(alloc, view, form, &mut sink) {
        Ok(()) => {
            assert!(rt; sink.bytes() == report);
            true
        }
        Err(ReportFault::Write | ReportFault::NoMemory) => {
            assert_may_refuse(rt);
            assert!(rt; report.starts_with(sink.bytes()));
            false
        }
    }
}

/// Puts a report of this form of the first worked run, once more where it is refused memory.
fn assert_put(rt: &(impl Abort + Env), alloc: Global, form: Form) {
    let core = first_core(rt, alloc);
    if !is_put(rt, alloc, core.view(), form) {
        assert!(rt;
            is_put(rt, alloc, core.view(), form),
            "it is written once more"
        );
    }
}

#[test]
fn refused_write_report(rt: HostRuntime) {
    assert_put(&rt, rt.alloc(), Form::Text);
}

#[test]
fn refused_write_json(rt: HostRuntime) {
    assert_put(&rt, rt.alloc(), Form::Json);
}

#[test]
fn refused_report_json(rt: HostRuntime) {
    let core = first_core(&rt, rt.alloc());
    let text = match report_json(rt.alloc(), core.view()) {
        Ok(text) => text,
        Err(_) => {
            assert_may_refuse(&rt);
            report_json(rt.alloc(), core.view()).expect(&rt, "it is made once more")
        }
    };
    assert!(rt; text.as_str() == FIRST_JSON);
}

/// Whether the first worked run is simulated, where memory may be refused: then a prefix of its
/// report is put.
fn is_simulated(rt: &(impl Abort + Env), alloc: Global) -> bool {
    let mut sink = MemSink::new(alloc, 0, 4096);
    match simulate(alloc, FIRST.as_bytes(), b"0000", 100_000, &mut sink) {
        Ok(refused) => {
            assert!(rt; refused.is_none());
            assert!(rt; sink.bytes() == FIRST_REPORT);
            true
        }
        Err(fault) => {
            assert_may_refuse(rt);
            assert!(rt; is_out_of_memory(fault));
            assert!(rt; FIRST_REPORT.starts_with(sink.bytes()));
            false
        }
    }
}

#[test]
fn refused_simulate(rt: HostRuntime) {
    if !is_simulated(&rt, rt.alloc()) {
        assert!(rt; is_simulated(&rt, rt.alloc()), "it is simulated once more");
    }
}

/// Whether good texts can be refused so: when out of memory, for which a put fails, too.
fn is_out_of_memory(fault: SimFault) -> bool {
    match fault {
        SimFault::Listing(fault) => fault.kind.number() == LISTING_NO_MEMORY,
        // a simulation reads its order without memory
        SimFault::Order(_) => false,
        SimFault::Boot(fault) => fault == BootFault::NoMemory,
        SimFault::Report(ReportFault::Write | ReportFault::NoMemory) => true,
    }
}
