//! One position of a run, as one JSON object.
#![tactic(auto, using(crate::proofs::LookLemmas::next_no_float), unfolding(crate::proofs::Unfold::look))]

ghost use Rattle.std.specs.Prelude.{◌≡◌, ◌+◌, ◌≤◌, ◌++◌, OnOk, IfOk, IfErr, length, string_bytes};
ghost use Rattle.std.specs.Prelude.{false};
ghost use Rattle.std.specs.Io.KnownBytes.{Appends};
ghost use Rattle.serde_json.specs.View.{view as data_of};
ghost use Rattle.serde_json.specs.Written.{compact_text};
ghost use Rattle.cheri_model.specs.runs.Replay.{operations_of};
ghost use Rattle.cheri_model.specs.steps.Checks.{is_in_code};
ghost use Rattle.listings.specs.Meaning.{listing_limit};
ghost use Rattle.sinks.specs.Sinks.{TakesAllBut, TakesPrefix};
ghost use Rattle.sinks.specs.WriteFaults.{failures_of};
ghost use Rattle.simulation.specs.Simulation.{IsRefusedRun, IsRunAnd, run_of_texts};
ghost use Rattle.simulation.specs.Simulation.{is_reported, failures_of_run};
ghost use Rattle.cores.specs.declared.cores.TheConstants.{GREATEST_TRACE_LIMIT};
ghost use Rattle.following.specs.Following.{origins_now};
ghost use Rattle.explanations.specs.Explanation.{explained_events};
ghost use Rattle.explanations.specs.InstructionLines.{unmapped};
ghost use Rattle.explanations.specs.JsonText.{events_from};
ghost use Rattle.explained_page.specs.Look.{
  line_at,
  next_line,
  line_or_null,
  next_data,
  look_data,
  core_look,
  look_of,
  look_head,
  look_end,
};

use crate::positions::follow_to;
use crate::state::write_state;
use cheri_model::{CODE_BASE, INSTRUCTION_BYTES, NoMemory, Status};
use cores::{Core, GREATEST_TRACE_LIMIT, StepFault};
use explanations::{Filter, InstructionLines, Selection, put_events};
use following::Follower;
use hart::Hart;
use listings::instruction_lines;
use report_lines::write_json_value;
use serde_json::Value;
use simulation::{SimFault, run_texts};
use sinks::{PIECE, Sink, WriteFault, put_whole};
use std::alloc::Global;

/// Whether an address is the place of an instruction, in a program of this many.
fn is_in_code(count: usize, addr: u64) -> bool
    ensures { result ≡ is_in_code count addr }
{
    addr >= CODE_BASE && (addr - CODE_BASE) / INSTRUCTION_BYTES < count as u64
}

/// The line of the instruction at an address, if one is there.
fn line_at(lines: &[u32], addr: u64) -> Option<u32>
    ensures { result ≡ line_at lines.now addr }
{
    if !is_in_code(lines.len(), addr) {
        return None;
    }
    if addr % INSTRUCTION_BYTES != 0 {
        return None;
    }
    let number = (addr - CODE_BASE) / INSTRUCTION_BYTES;
    Some(lines[number as usize])
}

/// The line of a hart's next instruction: none where the hart has stopped.
fn next_line(lines: &[u32], hart: &Hart) -> Option<u32>
    ensures { result ≡ next_line lines.now hart.now }
{
    match hart.status() {
        Status::Running => line_at(lines, hart.pcc().addr()),
        Status::Halted | Status::Trapped(_) => None,
    }
}

/// A line's number, or null.
fn line_json(line: Option<u32>) -> Value
    ensures { data_of result ≡ line_or_null line }
{
    match line {
        Some(number) => Value::from(number),
        None => Value::Null,
    }
}

/// The lines of the harts' next instructions, in JSON.
fn next_json(alloc: Global, lines: &[u32], follower: &Follower) -> Result<Value, NoMemory>
    ensures { IfOk result (λ v. data_of v ≡ next_data lines.now follower.now.state.harts) }
{
    let harts = follower.view().harts;
    let mut values = Vec::new(alloc);
    for hart in harts {
        values.push(line_json(next_line(lines, hart)))?;
    }
    Ok(Value::Array(values))
}

/// Appends them.
fn write_next(
    alloc: Global,
    out: &mut String,
    lines: &[u32],
    follower: &Follower,
) -> Result<(), NoMemory>
    ensures { OnOk result (string_bytes out.new ≡ string_bytes out.old
        ++ compact_text (next_data lines.now follower.now.state.harts)) }
{
    write_json_value(alloc, out, next_json(alloc, lines, follower)?)
}

/// Appends what is before the events.
fn write_head(out: &mut String, at: usize) -> Result<(), NoMemory>
    ensures { OnOk result (string_bytes out.new ≡ string_bytes out.old ++ look_head at) }
{
    write!(out, "{{\"at\":{at},\"events\":[")
}

/// Writes the selected events of a core's trace, and the bracket after them. Takes no event once
/// more where none is selected.
fn put_selected<S: Sink>(
    alloc: Global,
    out: &mut String,
    sink: &mut S,
    core: &Core,
    lines: &[u32],
    selection: Selection,
) -> Result<(), WriteFault>
    ensures whole { OnOk result (TakesAllBut (S.written sink.old) (S.written sink.new)
        (string_bytes out.new) (string_bytes out.old
        ++ events_from (unmapped lines.now) selection false 0
        (explained_events core.now.image (operations_of core.now.trace)))) }
    ensures prefix { TakesPrefix (S.written sink.old) (S.written sink.new) (string_bytes out.old
        ++ events_from (unmapped lines.now) selection false 0
        (explained_events core.now.image (operations_of core.now.trace))) }
    ensures failures { S.failures sink.new ≡ S.failures sink.old + failures_of result }
    ensures identity { S.identity sink.new ≡ S.identity sink.old }
{
    if selection.first > selection.last {
        out.push_str("]")?;
        return Ok(());
    }
    let lines = InstructionLines::new(lines, None);
    put_events(alloc, out, sink, core, &lines, selection)
}

/// Appends what is after them.
fn write_end(
    alloc: Global,
    out: &mut String,
    lines: &[u32],
    follower: &Follower,
) -> Result<(), NoMemory>
    ensures { OnOk result (string_bytes out.new ≡ string_bytes out.old
        ++ look_end lines.now (origins_now follower.now) follower.now.state) }
{
    out.push_str(",\"next\":")?;
    write_next(alloc, out, lines, follower)?;
    out.push_str(",\"state\":")?;
    write_state(alloc, out, follower)?;
    out.push_str("}")?;
    Ok(())
}

/// Writes a position of what a core took; `lines` has the number of each instruction's line. After
/// a fault the sink took a prefix of it.
fn put_look<S: Sink>(
    alloc: Global,
    core: &Core,
    lines: &[u32],
    at: u32,
    selection: Selection,
    sink: &mut S,
) -> Result<(), WriteFault>
    ensures whole { OnOk result (Appends (S.written sink.old) (S.written sink.new)
        (compact_text (look_data core.now.image lines.now at selection
        (operations_of core.now.trace)))) }
    ensures prefix { TakesPrefix (S.written sink.old) (S.written sink.new)
        (compact_text (look_data core.now.image lines.now at selection
        (operations_of core.now.trace))) }
    ensures failures { S.failures sink.new ≡ S.failures sink.old + failures_of result }
    ensures identity { S.identity sink.new ≡ S.identity sink.old }
{
    let view = core.view();
    let mut out = String::with_capacity(alloc, PIECE)?;
    let taken = (at as usize).min(view.entries.len());
    write_head(&mut out, taken)?;
    put_selected(alloc, &mut out, sink, core, lines, selection)?;
    let follower = follow_to(alloc, core, at as usize)?;
    write_end(alloc, &mut out, lines, &follower)?;
    put_whole(sink, out.as_bytes())?;
    Ok(())
}

/// Writes a position of what a core of a listing took.
fn put_core_look<S: Sink>(
    alloc: Global,
    core: &Core,
    listing: &[u8],
    at: u32,
    first: u32,
    last: u32,
    sink: &mut S,
) -> Result<(), WriteFault>
    requires { length listing.now ≤ listing_limit }
    ensures whole { OnOk result (Appends (S.written sink.old) (S.written sink.new)
        (core_look listing.now at first last core.now)) }
    ensures prefix { TakesPrefix (S.written sink.old) (S.written sink.new)
        (core_look listing.now at first last core.now) }
    ensures failures { S.failures sink.new ≡ S.failures sink.old + failures_of result }
    ensures identity { S.identity sink.new ≡ S.identity sink.old }
{
    let lines = instruction_lines(alloc, listing)?;
    let selection = Selection {
        first,
        last,
        filter: Filter::All,
    };
    put_look(alloc, core, &lines, at, selection, sink)
}

/// Runs the machine of a listing in an order and writes one position of the run, as one JSON object
/// without a space: `at`, how many operations were taken there, at most as many as the run has;
/// `events`, the explained events of the run from `first` to `last`; `next`, the line of each
/// hart's next instruction at that position, and null where the hart has stopped or none is there;
/// and `state`, the state there, with origins. Answers the operation that was refused, if one was,
/// with its place in the order counted from 0; the run is of the operations before it. Nothing is
/// written before both texts are good; the listing is judged first. After a fault of the writing
/// the sink took a prefix of the object.
pub fn write_look<S: Sink>(
    alloc: Global,
    listing: &[u8],
    order: &[u8],
    at: u32,
    first: u32,
    last: u32,
    out: &mut S,
) -> Result<Option<(usize, StepFault)>, SimFault>
    ensures shown { IfOk result (λ end.
        IsRunAnd (run_of_texts listing.now order.now GREATEST_TRACE_LIMIT)
        (λ run. (run.1 ≡ end) × Appends (S.written out.old) (S.written out.new)
        (look_of listing.now at first last run))) }
    ensures refused { IfErr result (λ fault.
        IsRefusedRun (run_of_texts listing.now order.now GREATEST_TRACE_LIMIT)
        (λ run. TakesPrefix (S.written out.old) (S.written out.new)
        (look_of listing.now at first last run)) fault) }
    ensures untouched { IfErr result (λ fault. is_reported fault ≡ false → out.new ≡ out.old) }
    ensures failures { S.failures out.new ≡ S.failures out.old + failures_of_run result }
    ensures identity { S.identity out.new ≡ S.identity out.old }
{
    let (core, refused) = run_texts(alloc, listing, order, GREATEST_TRACE_LIMIT)?;
    put_core_look(alloc, &core, listing, at, first, last, out)?;
    Ok(refused)
}
