//! The text of an explanation.
#![tactic(auto, unfolding(crate::proofs::Unfold::shown))]

ghost use Rattle.std.specs.Prelude.{◌≡◌, ◌+◌, ◌≤◌, ◌++◌, OnOk, length, string_bytes};
ghost use Rattle.std.specs.Io.KnownBytes.{Appends};
ghost use Rattle.cheri_model.specs.runs.Replay.{operations_of};
ghost use Rattle.cores.specs.Cores.{opening_core};
ghost use Rattle.sinks.specs.Sinks.{TakesAllBut, TakesPrefix};
ghost use Rattle.sinks.specs.WriteFaults.{failures_of};
ghost use Rattle.report_lines.specs.Lines.{event_line};
ghost use Rattle.explanations.specs.FactLines.{swept_lines};
ghost use Rattle.explanations.specs.Explanation.{
  shown_lines,
  events_lines,
  head_lines,
  explanation,
};
ghost use Rattle.explanations.specs.NextFacts.{explained_of};

use crate::fact_lines::{write_step, write_swept};
use crate::followed::{EventAndFacts, Retaken, follow, take};
use crate::lines::InstructionLines;
use crate::selection::{Selection, Shown};
use cheri_model::{Event, Image, NoMemory};
use cores::Core;
use facts::StepFacts;
use origins::Place;
use report_lines::{write_count_line, write_event_line, write_image_line};
use sinks::{PIECE, Sink, WriteFault, make_room, put_whole};
use std::alloc::Global;

/// Appends the places that a sweep cleared.
fn write_places(out: &mut String, places: &[Place]) -> Result<(), NoMemory>
    ensures { OnOk result (string_bytes out.new
        ≡ string_bytes out.old ++ swept_lines places.now) }
{
    for place in places {
        write_swept(out, *place)?;
    }
    Ok(())
}

/// Appends a sweep and what it cleared.
fn write_sweep(
    out: &mut String,
    number: usize,
    event: &Event,
    places: &[Place],
) -> Result<(), NoMemory>
    ensures { OnOk result (string_bytes out.new
        ≡ string_bytes out.old ++ (event_line number event.now ++ swept_lines places.now)) }
{
    write_event_line(out, number, event)?;
    write_places(out, places)
}

/// Appends an event and its facts, if it is shown.
fn write_event(
    out: &mut String,
    shown: Shown<'_>,
    number: usize,
    taken: EventAndFacts<'_>,
) -> Result<(), NoMemory>
    ensures { OnOk result (string_bytes out.new ≡ string_bytes out.old
        ++ shown_lines shown.entry.lines.now shown.entry.selection number
        (explained_of taken.entry)) }
{
    if !shown.selection.shows(number, &taken) {
        return Ok(());
    }
    match taken.event {
        Event::Step(_) => write_step(out, shown.lines, number, taken.facts),
        Event::Sweep { .. } => write_sweep(out, number, taken.event, taken.places.as_slice()),
    }
}

/// Writes the events of a core's trace that are shown, each taken once more.
fn put_retaken<S: Sink>(
    alloc: Global,
    out: &mut String,
    sink: &mut S,
    core: &Core,
    shown: Shown<'_>,
    retaken: &mut Retaken,
) -> Result<(), WriteFault>
    requires opened { retaken.old.follower ≡ opening_core core.now.image core.now.limit }
    requires fits { length core.now.trace ≤ core.now.limit }
    ensures whole { OnOk result (TakesAllBut (S.written sink.old) (S.written sink.new)
        (string_bytes out.new) (string_bytes out.old
        ++ events_lines core.now.image shown.entry.lines.now shown.entry.selection
        (operations_of core.now.trace))) }
    ensures prefix { TakesPrefix (S.written sink.old) (S.written sink.new) (string_bytes out.old
        ++ events_lines core.now.image shown.entry.lines.now shown.entry.selection
        (operations_of core.now.trace)) }
    ensures failures { S.failures sink.new ≡ S.failures sink.old + failures_of result }
    ensures identity { S.identity sink.new ≡ S.identity sink.old }
{
    let view = core.view();
    for (number, event) in view.entries.iter().enumerate() {
        let places = take(alloc, &mut retaken.follower, &mut retaken.facts, event)?;
        let taken = EventAndFacts {
            event,
            facts: &retaken.facts,
            places,
        };
        write_event(out, shown, number, taken)?;
        make_room(out, sink)?;
    }
    Ok(())
}

/// Writes the events of a core's trace that are shown, taking them once more from the opening on.
fn put_events<S: Sink>(
    alloc: Global,
    out: &mut String,
    sink: &mut S,
    core: &Core,
    lines: &InstructionLines<'_>,
    selection: Selection,
) -> Result<(), WriteFault>
    ensures whole { OnOk result (TakesAllBut (S.written sink.old) (S.written sink.new)
        (string_bytes out.new) (string_bytes out.old
        ++ events_lines core.now.image lines.now selection (operations_of core.now.trace))) }
    ensures prefix { TakesPrefix (S.written sink.old) (S.written sink.new) (string_bytes out.old
        ++ events_lines core.now.image lines.now selection (operations_of core.now.trace)) }
    ensures failures { S.failures sink.new ≡ S.failures sink.old + failures_of result }
    ensures identity { S.identity sink.new ≡ S.identity sink.old }
{
    let follower = follow(alloc, core)?;
    let mut retaken = Retaken {
        follower,
        facts: StepFacts::blank(),
    };
    put_retaken(
        alloc,
        out,
        sink,
        core,
        Shown { lines, selection },
        &mut retaken,
    )
}

/// Appends the lines before the first event.
fn write_head(out: &mut String, image: &Image, count: usize) -> Result<(), NoMemory>
    ensures { OnOk result (string_bytes out.new
        ≡ string_bytes out.old ++ head_lines image.now count) }
{
    out.push_str("cheri-sim explanation 1\n")?;
    write_image_line(out, image)?;
    write_count_line(out, count)
}

/// Writes the explanation of what a core took. After a fault the sink took a prefix of it.
pub(crate) fn write_text<S: Sink>(
    alloc: Global,
    core: &Core,
    lines: &InstructionLines<'_>,
    selection: Selection,
    sink: &mut S,
) -> Result<(), WriteFault>
    ensures whole { OnOk result (Appends (S.written sink.old) (S.written sink.new)
        (explanation core.now.image lines.now selection (operations_of core.now.trace))) }
    ensures prefix { TakesPrefix (S.written sink.old) (S.written sink.new)
        (explanation core.now.image lines.now selection (operations_of core.now.trace)) }
    ensures failures { S.failures sink.new ≡ S.failures sink.old + failures_of result }
    ensures identity { S.identity sink.new ≡ S.identity sink.old }
{
    let view = core.view();
    let mut out = String::with_capacity(alloc, PIECE)?;
    write_head(&mut out, view.image, view.entries.len())?;
    put_events(alloc, &mut out, sink, core, lines, selection)?;
    out.push_str("end\n")?;
    put_whole(sink, out.as_bytes())?;
    Ok(())
}
