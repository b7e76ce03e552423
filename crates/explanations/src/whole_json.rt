//! An explanation in JSON, event by event.
#![tactic(auto, using(crate::proofs::FactLemmas::floatless), unfolding(crate::proofs::Unfold::item))]

ghost use Rattle.std.specs.Prelude.{
  ◌≡◌,
  ◌+◌,
  ◌≤◌,
  ◌||◌,
  ◌++◌,
  IfOk,
  OnOk,
  length,
  string_bytes,
  false,
};
ghost use Rattle.std.specs.Io.KnownBytes.{Appends};
ghost use Rattle.serde_json.specs.Written.{compact_text};
ghost use Rattle.cheri_model.specs.runs.Replay.{operations_of};
ghost use Rattle.cores.specs.Cores.{opening_core};
ghost use Rattle.sinks.specs.Sinks.{TakesAllBut, TakesPrefix};
ghost use Rattle.sinks.specs.WriteFaults.{failures_of};
ghost use Rattle.explanations.specs.Explanation.{
  event_data,
  explained_events,
  is_shown,
  explanation_json,
};
ghost use Rattle.explanations.specs.JsonText.{json_head, shown_item, events_from, json_end};
ghost use Rattle.explanations.specs.NextFacts.{explained_of};

use crate::fact_data::sweep_json;
use crate::followed::{EventAndFacts, Retaken, follow, take};
use crate::lines::InstructionLines;
use crate::selection::{Selection, Shown};
use crate::step_json::write_step_json;
use cheri_model::{Event, Image, NoMemory};
use cores::Core;
use facts::StepFacts;
use report_lines::{image_json, write_comma, write_json_value};
use sinks::{PIECE, Sink, WriteFault, make_room, put_whole};
use std::alloc::Global;

/// Appends an event and its facts.
fn write_taken(
    alloc: Global,
    out: &mut String,
    lines: &InstructionLines<'_>,
    number: usize,
    taken: &EventAndFacts<'_>,
) -> Result<(), NoMemory>
    ensures { OnOk result (string_bytes out.new ≡ string_bytes out.old
        ++ compact_text (event_data lines.now number (explained_of taken.now))) }
{
    match taken.event {
        Event::Step(_) => write_step_json(alloc, out, lines, number, taken.facts),
        Event::Sweep { .. } => {
            let data = sweep_json(alloc, number, taken.event, taken.places.as_slice())?;
            write_json_value(alloc, out, data)
        }
    }
}

/// Appends an event and its facts, if it is shown, and gives whether an event is there now.
fn write_event(
    alloc: Global,
    out: &mut String,
    shown: Shown<'_>,
    later: bool,
    number: usize,
    taken: EventAndFacts<'_>,
) -> Result<bool, NoMemory>
    ensures item { OnOk result (string_bytes out.new ≡ string_bytes out.old
        ++ shown_item shown.entry.lines.now shown.entry.selection later number
        (explained_of taken.entry)) }
    ensures later { IfOk result (λ now. now
        ≡ (later || is_shown shown.entry.selection number (explained_of taken.entry).1)) }
{
    if !shown.selection.shows(number, &taken) {
        return Ok(later);
    }
    write_comma(out, later)?;
    write_taken(alloc, out, shown.lines, number, &taken)?;
    Ok(true)
}

/// Writes the events of a core's trace that are shown, each taken once more, and the bracket after
/// them.
fn put_retaken<S: Sink>(
    alloc: Global,
    out: &mut String,
    sink: &mut S,
    core: &Core,
    shown: Shown<'_>,
    retaken: &mut Retaken,
) -> Result<(), WriteFault>
    requires opened { retaken.old.follower ≡ opening_core core.now.image core.now.limit }
    requires fits { length core.now.trace ≤ core.now.limit }
    ensures whole { OnOk result (TakesAllBut (S.written sink.old) (S.written sink.new)
        (string_bytes out.new) (string_bytes out.old
        ++ events_from shown.entry.lines.now shown.entry.selection false 0
        (explained_events core.now.image (operations_of core.now.trace)))) }
    ensures prefix { TakesPrefix (S.written sink.old) (S.written sink.new) (string_bytes out.old
        ++ events_from shown.entry.lines.now shown.entry.selection false 0
        (explained_events core.now.image (operations_of core.now.trace))) }
    ensures failures { S.failures sink.new ≡ S.failures sink.old + failures_of result }
    ensures identity { S.identity sink.new ≡ S.identity sink.old }
{
    let mut later = false;
    let view = core.view();
    for (number, event) in view.entries.iter().enumerate() {
        let places = take(alloc, &mut retaken.follower, &mut retaken.facts, event)?;
        let taken = EventAndFacts {
            event,
            facts: &retaken.facts,
            places,
        };
        later = write_event(alloc, out, shown, later, number, taken)?;
        make_room(out, sink)?;
    }
    out.push_str("]")?;
    Ok(())
}

/// Writes the events of a core's trace that are shown, taking them once more from the opening on,
/// and the bracket after them.
pub fn put_events<S: Sink>(
    alloc: Global,
    out: &mut String,
    sink: &mut S,
    core: &Core,
    lines: &InstructionLines<'_>,
    selection: Selection,
) -> Result<(), WriteFault>
    ensures whole { OnOk result (TakesAllBut (S.written sink.old) (S.written sink.new)
        (string_bytes out.new) (string_bytes out.old ++ events_from lines.now selection false 0
        (explained_events core.now.image (operations_of core.now.trace)))) }
    ensures prefix { TakesPrefix (S.written sink.old) (S.written sink.new) (string_bytes out.old
        ++ events_from lines.now selection false 0
        (explained_events core.now.image (operations_of core.now.trace))) }
    ensures failures { S.failures sink.new ≡ S.failures sink.old + failures_of result }
    ensures identity { S.identity sink.new ≡ S.identity sink.old }
{
    let follower = follow(alloc, core)?;
    let mut retaken = Retaken {
        follower,
        facts: StepFacts::blank(),
    };
    put_retaken(
        alloc,
        out,
        sink,
        core,
        Shown { lines, selection },
        &mut retaken,
    )
}

/// Appends what is before the events.
fn write_head(out: &mut String, count: usize) -> Result<(), NoMemory>
    ensures { OnOk result (string_bytes out.new ≡ string_bytes out.old ++ json_head count) }
{
    write!(out, "{{\"entries\":{count},\"events\":[")
}

/// Appends what is after the events.
fn write_end(alloc: Global, out: &mut String, image: &Image) -> Result<(), NoMemory>
    ensures { OnOk result (string_bytes out.new ≡ string_bytes out.old ++ json_end image.now) }
{
    let version: u8 = 1;
    write!(out, ",\"explanation\":{version},\"image\":")?;
    write_json_value(alloc, out, image_json(alloc, image)?)?;
    out.push_str("}\n")?;
    Ok(())
}

/// Writes the explanation of what a core took, in JSON; `lines` has the number of each
/// instruction's line. After a fault the sink took a prefix of it.
pub fn write_json<S: Sink>(
    alloc: Global,
    core: &Core,
    lines: &InstructionLines<'_>,
    selection: Selection,
    sink: &mut S,
) -> Result<(), WriteFault>
    ensures whole { OnOk result (Appends (S.written sink.old) (S.written sink.new)
        (explanation_json core.now.image lines.now selection (operations_of core.now.trace))) }
    ensures prefix { TakesPrefix (S.written sink.old) (S.written sink.new)
        (explanation_json core.now.image lines.now selection (operations_of core.now.trace)) }
    ensures failures { S.failures sink.new ≡ S.failures sink.old + failures_of result }
    ensures identity { S.identity sink.new ≡ S.identity sink.old }
{
    let view = core.view();
    let mut out = String::with_capacity(alloc, PIECE)?;
    write_head(&mut out, view.entries.len())?;
    put_events(alloc, &mut out, sink, core, lines, selection)?;
    write_end(alloc, &mut out, view.image)?;
    put_whole(sink, out.as_bytes())?;
    Ok(())
}
