//! Calls about a listing, and about its run in an order.

ghost use Rattle.std.specs.Prelude.{◌≡◌, []};
ghost use Rattle.simulation.specs.Simulation.{json_of, report_of};
ghost use Rattle.explained_page.specs.Look.{look_of};
ghost use Rattle.explanations.specs.ExplainedRuns.{explained};
ghost use Rattle.explanations.specs.declared.runs.Format.TheVariants as formats;
ghost use Rattle.explanations.specs.declared.selection.Filter.TheVariants as filters;
ghost use Rattle.cheri_page.specs.Answers.{Answers, IsTold};
ghost use Rattle.cheri_page.specs.Runs.{IsCheckTold, IsRunTold, told_by};

use crate::answer::{Answer, tell};
use crate::fault::Fault;
use cores::{GREATEST_TRACE_LIMIT, StepFault};
use explained_page::write_look;
use explanations::{Filter, Format, Selection, explain};
use listings::read_listing;
use simulation::{SimFault, simulate, simulate_json};
use sinks::MemSink;
use std::alloc::Global;

/// A sink that keeps all that it is given.
pub(crate) fn keeper(alloc: Global) -> MemSink
    ensures { result ≡ record { bytes = []; most = usize.MAX; fails_in = 0; failures = 0 } }
{
    MemSink::new(alloc, 0, usize::MAX)
}

/// Tells what was written of a run, and which operation stopped it; or why there is no run.
pub(crate) fn tell_run(
    alloc: Global,
    ran: Result<Option<(usize, StepFault)>, SimFault>,
    text: &[u8],
    out: &mut [u8],
    answer: &mut Answer,
)
    ensures { Answers (IsTold (told_by ran text.now)) out.old out.new answer.new }
{
    match ran {
        Ok(None) => tell(alloc, text, None, out, answer),
        Ok(Some((place, fault))) => {
            tell(alloc, text, Some(Fault::Step(place, fault)), out, answer)
        }
        Err(fault) => tell(alloc, b"", Some(Fault::from(fault)), out, answer),
    }
}

/// Judges a listing: nothing is written but the line of its fault.
#[unsafe(no_mangle)]
pub extern "C" fn cheri_check(alloc: Global, listing: &[u8], out: &mut [u8], answer: &mut Answer)
    ensures { Answers (IsCheckTold listing.now) out.old out.new answer.new }
{
    match read_listing(alloc, listing) {
        Ok(_) => tell(alloc, b"", None, out, answer),
        Err(fault) => tell(alloc, b"", Some(Fault::from(fault)), out, answer),
    }
}

/// The report of a listing's run in an order.
#[unsafe(no_mangle)]
pub extern "C" fn cheri_run(
    alloc: Global,
    listing: &[u8],
    order: &[u8],
    out: &mut [u8],
    answer: &mut Answer,
)
    ensures { Answers (IsRunTold report_of listing.now order.now) out.old out.new answer.new }
{
    let mut sink = keeper(alloc);
    let ran = simulate(alloc, listing, order, GREATEST_TRACE_LIMIT, &mut sink);
    tell_run(alloc, ran, sink.bytes(), out, answer);
}

/// The same in JSON, in one line.
#[unsafe(no_mangle)]
pub extern "C" fn cheri_json(
    alloc: Global,
    listing: &[u8],
    order: &[u8],
    out: &mut [u8],
    answer: &mut Answer,
)
    ensures { Answers (IsRunTold json_of listing.now order.now) out.old out.new answer.new }
{
    let mut sink = keeper(alloc);
    let ran = simulate_json(alloc, listing, order, GREATEST_TRACE_LIMIT, &mut sink);
    tell_run(alloc, ran, sink.bytes(), out, answer);
}

/// The explanation as text of the events of a run that are numbered from `from` to `to`, which are
/// counted from 0 over the whole run.
#[unsafe(no_mangle)]
pub extern "C" fn cheri_explain(
    alloc: Global,
    listing: &[u8],
    order: &[u8],
    from: u32,
    to: u32,
    out: &mut [u8],
    answer: &mut Answer,
)
    ensures { Answers (IsRunTold
        (explained formats.Text listing.now
        (record { first = from; last = to; filter = filters.All }))
        listing.now order.now) out.old out.new answer.new }
{
    let selection = Selection {
        first: from,
        last: to,
        filter: Filter::All,
    };
    let mut sink = keeper(alloc);
    let ran = explain(alloc, listing, order, selection, Format::Text, &mut sink);
    tell_run(alloc, ran, sink.bytes(), out, answer);
}

/// The run's position after `at` operations, or after all of them, as one JSON object: `at`, the
/// state, each hart's next line, and the events of the run that are numbered from `from` to `to`.
#[unsafe(no_mangle)]
pub extern "C" fn cheri_look(
    alloc: Global,
    listing: &[u8],
    order: &[u8],
    at: u32,
    from: u32,
    to: u32,
    out: &mut [u8],
    answer: &mut Answer,
)
    ensures { Answers (IsRunTold (look_of listing.now at from to) listing.now order.now) out.old
        out.new answer.new }
{
    let mut sink = keeper(alloc);
    let ran = write_look(alloc, listing, order, at, from, to, &mut sink);
    tell_run(alloc, ran, sink.bytes(), out, answer);
}
