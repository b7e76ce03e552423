//! The page of the run of two texts, a listing and an order.

ghost use Rattle.std.specs.Prelude.{◌≡◌, ◌+◌, ◌≤◌, IfOk, IfErr, OnOk, length, false};
ghost use Rattle.std.specs.Io.KnownBytes.{Appends};
ghost use Rattle.listings.specs.Meaning.{listing_limit};
ghost use Rattle.sinks.specs.Sinks.{TakesPrefix};
ghost use Rattle.sinks.specs.WriteFaults.{failures_of};
ghost use Rattle.simulation.specs.Simulation.{IsRefusedRun, IsRunAnd, run_of_texts};
ghost use Rattle.simulation.specs.Simulation.{is_reported, failures_of_run};
ghost use Rattle.cores.specs.declared.cores.TheConstants.{GREATEST_TRACE_LIMIT};
ghost use Rattle.explained_page.specs.PagedRuns.{IsPageEnd, core_page, is_unpaged, paged};

use crate::pages::{is_too_long, put_page};
use cores::{Core, GREATEST_TRACE_LIMIT, StepFault};
use explanations::{Filter, Selection};
use listings::instruction_lines;
use simulation::{SimFault, run_texts};
use sinks::{Sink, WriteFault};
use std::alloc::Global;

/// How the page of a run ended that was not refused.
#[derive(Clone, Copy, Debug, PartialEq, Eq)]
pub enum PageEnd {
    /// It was written. The operation that was refused, if one was, with its place in the order
    /// counted from 0.
    Written(Option<(usize, StepFault)>),
    /// It would show more than 5,000 events, and nothing was written.
    TooLong,
}

/// Writes the page of what a core of a listing took.
#[tactic(auto, unfolding(crate::specs::PagedRuns::core_page))]
fn put_core_page<S: Sink>(
    alloc: Global,
    core: &Core,
    listing: &[u8],
    first: u32,
    last: u32,
    sink: &mut S,
) -> Result<(), WriteFault>
    requires { length listing.now ≤ listing_limit }
    ensures whole { OnOk result (Appends (S.written sink.old) (S.written sink.new)
        (core_page listing.now first last core.now)) }
    ensures prefix { TakesPrefix (S.written sink.old) (S.written sink.new)
        (core_page listing.now first last core.now) }
    ensures failures { S.failures sink.new ≡ S.failures sink.old + failures_of result }
    ensures identity { S.identity sink.new ≡ S.identity sink.old }
{
    let lines = instruction_lines(alloc, listing)?;
    let selection = Selection {
        first,
        last,
        filter: Filter::All,
    };
    put_page(alloc, core, listing, &lines, selection, sink)
}

/// Runs the machine of a listing in an order and writes the page that explains its events from
/// `first` to `last`: one file that needs no other. What is shown is of the operations before the
/// one that was refused, if one was. Nothing is written before both texts are good, and nothing
/// where the page would show more than 5,000 events. The listing is judged first. After a fault of
/// the writing the sink took a prefix of the page.
pub fn write_page<S: Sink>(
    alloc: Global,
    listing: &[u8],
    order: &[u8],
    first: u32,
    last: u32,
    out: &mut S,
) -> Result<PageEnd, SimFault>
    ensures shown { IfOk result (λ end.
        IsRunAnd (run_of_texts listing.now order.now GREATEST_TRACE_LIMIT) (λ run.
        IsPageEnd listing.now first last run (S.written out.old) (S.written out.new) end)) }
    ensures refused { IfErr result (λ fault.
        IsRefusedRun (run_of_texts listing.now order.now GREATEST_TRACE_LIMIT)
        (λ run. (is_unpaged first last run ≡ false)
        × TakesPrefix (S.written out.old) (S.written out.new)
        (paged listing.now first last run)) fault) }
    ensures untouched { IfErr result (λ fault. is_reported fault ≡ false → out.new ≡ out.old) }
    ensures failures { S.failures out.new ≡ S.failures out.old + failures_of_run result }
    ensures identity { S.identity out.new ≡ S.identity out.old }
{
    let (core, refused) = run_texts(alloc, listing, order, GREATEST_TRACE_LIMIT)?;
    if is_too_long(first, last, core.view().entries.len()) {
        return Ok(PageEnd::TooLong);
    }
    put_core_page(alloc, &core, listing, first, last, out)?;
    Ok(PageEnd::Written(refused))
}
