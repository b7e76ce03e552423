//! The JSON report in pieces, so that no value of it is ever whole.

#![tactic(auto, using(crate::proofs::JsonLemmas::floatless), unfolding(crate::proofs::Unfold::json_parts))]

ghost use Rattle.std.specs.Prelude.{◌≡◌, ◌+◌, ◌++◌, OnOk, string_bytes};
ghost use Rattle.std.specs.Io.KnownBytes.{Appends};
ghost use Rattle.hart.specs.View.{state_of};
ghost use Rattle.report_lines.specs.EventData.{event_data};
ghost use Rattle.report_lines.specs.JsonText.{item_text};
ghost use Rattle.reports.specs.Json.{events_data, json_report};
ghost use Rattle.reports.specs.JsonText.{events_part, harts_part, image_part, json_parts};
ghost use Rattle.reports.specs.JsonText.{last_part, memory_part};
ghost use Rattle.serde_json.specs.Written.{compact_text};
ghost use Rattle.sinks.specs.Sinks.{TakesAllBut, TakesPrefix};
ghost use Rattle.sinks.specs.WriteFaults.{failures_of};

use super::state::{put_granules_json, put_harts_json};
use crate::report::version_of;
use cheri_model::{Event, Image, NoMemory};
use hart::{Hart, View};
use itoa::Buffer;
use report_lines::{image_json, write_comma, write_event_json, write_json_value};
use sinks::{PIECE, Sink, WriteFault, make_room, put_whole};
use std::alloc::Global;

/// Appends an event of the trace, by its number.
fn write_event(
    alloc: Global,
    out: &mut String,
    number: usize,
    event: &Event,
) -> Result<(), NoMemory>
    ensures { OnOk result (string_bytes out.new
        ≡ string_bytes out.old ++ item_text event_data number event.now) }
{
    write_comma(out, number > 0)?;
    write_event_json(alloc, out, event)
}

/// Writes the events as a list.
fn put_events<S: Sink>(
    alloc: Global,
    out: &mut String,
    sink: &mut S,
    events: &[Event],
) -> Result<(), WriteFault>
    ensures whole { OnOk result (TakesAllBut (S.written sink.old) (S.written sink.new)
        (string_bytes out.new)
        (string_bytes out.old ++ compact_text (events_data events.now))) }
    ensures prefix { TakesPrefix (S.written sink.old) (S.written sink.new)
        (string_bytes out.old ++ compact_text (events_data events.now)) }
    ensures failures { S.failures sink.new ≡ S.failures sink.old + failures_of result }
    ensures identity { S.identity sink.new ≡ S.identity sink.old }
{
    out.push_str("[")?;
    for (number, event) in events.iter().enumerate() {
        write_event(alloc, out, number, event)?;
        make_room(out, sink)?;
    }
    out.push_str("]")?;
    Ok(())
}

/// Writes the object's first part, with the events.
fn put_events_part<S: Sink>(
    alloc: Global,
    out: &mut String,
    sink: &mut S,
    events: &[Event],
) -> Result<(), WriteFault>
    ensures whole { OnOk result (TakesAllBut (S.written sink.old) (S.written sink.new)
        (string_bytes out.new) (string_bytes out.old ++ events_part events.now)) }
    ensures prefix { TakesPrefix (S.written sink.old) (S.written sink.new)
        (string_bytes out.old ++ events_part events.now) }
    ensures failures { S.failures sink.new ≡ S.failures sink.old + failures_of result }
    ensures identity { S.identity sink.new ≡ S.identity sink.old }
{
    out.push_str("{\"entries\":")?;
    put_events(alloc, out, sink, events)
}

/// Writes the member of the harts.
fn put_harts_part<S: Sink>(
    alloc: Global,
    out: &mut String,
    sink: &mut S,
    harts: &[Hart],
) -> Result<(), WriteFault>
    ensures whole { OnOk result (TakesAllBut (S.written sink.old) (S.written sink.new)
        (string_bytes out.new) (string_bytes out.old ++ harts_part harts.now)) }
    ensures prefix { TakesPrefix (S.written sink.old) (S.written sink.new)
        (string_bytes out.old ++ harts_part harts.now) }
    ensures failures { S.failures sink.new ≡ S.failures sink.old + failures_of result }
    ensures identity { S.identity sink.new ≡ S.identity sink.old }
{
    out.push_str(",\"harts\":")?;
    put_harts_json(alloc, out, sink, harts)
}

/// Appends what stands between the harts and the granules.
fn write_image(alloc: Global, out: &mut String, image: &Image) -> Result<(), NoMemory>
    ensures { OnOk result (string_bytes out.new ≡ string_bytes out.old ++ image_part image.now) }
{
    out.push_str(",\"image\":")?;
    write_json_value(alloc, out, image_json(alloc, image)?)?;
    out.push_str(",\"mem\":")
}

/// Writes the members of the image and of the granules.
fn put_memory_part<S: Sink>(
    alloc: Global,
    out: &mut String,
    sink: &mut S,
    view: View<'_>,
) -> Result<(), WriteFault>
    ensures whole { OnOk result (TakesAllBut (S.written sink.old) (S.written sink.new)
        (string_bytes out.new)
        (string_bytes out.old ++ memory_part view.entry.image.now (state_of view.entry).memory)) }
    ensures prefix { TakesPrefix (S.written sink.old) (S.written sink.new)
        (string_bytes out.old ++ memory_part view.entry.image.now (state_of view.entry).memory) }
    ensures failures { S.failures sink.new ≡ S.failures sink.old + failures_of result }
    ensures identity { S.identity sink.new ≡ S.identity sink.old }
{
    write_image(alloc, out, view.image)?;
    put_granules_json(alloc, out, sink, view.ram)
}

/// Appends the end.
fn write_end(out: &mut String, events: &[Event]) -> Result<(), NoMemory>
    ensures { OnOk result (string_bytes out.new
        ≡ string_bytes out.old ++ last_part events.now) }
{
    let version = version_of(events);
    let mut number = Buffer::new();
    out.push_str(",\"report\":")?;
    out.push_str(number.format(version))?;
    out.push_str("}")?;
    Ok(())
}

/// Writes all but the end.
fn put_parts<S: Sink>(
    alloc: Global,
    out: &mut String,
    sink: &mut S,
    view: View<'_>,
) -> Result<(), WriteFault>
    ensures whole { OnOk result (TakesAllBut (S.written sink.old) (S.written sink.new)
        (string_bytes out.new) (string_bytes out.old
        ++ json_parts view.entry.image.now view.entry.entries.now (state_of view.entry))) }
    ensures prefix { TakesPrefix (S.written sink.old) (S.written sink.new) (string_bytes out.old
        ++ json_parts view.entry.image.now view.entry.entries.now (state_of view.entry)) }
    ensures failures { S.failures sink.new ≡ S.failures sink.old + failures_of result }
    ensures identity { S.identity sink.new ≡ S.identity sink.old }
{
    put_events_part(alloc, out, sink, view.entries)?;
    put_harts_part(alloc, out, sink, view.harts)?;
    put_memory_part(alloc, out, sink, view)
}

/// Writes the JSON report of what a view shows, compact, with its keys in byte order, in pieces of
/// at most 64 KiB. After a fault the sink took a prefix of it.
pub fn write_json<S: Sink>(alloc: Global, view: View<'_>, sink: &mut S) -> Result<(), WriteFault>
    ensures whole { OnOk result (Appends (S.written sink.old) (S.written sink.new) (compact_text
        (json_report view.entry.image.now view.entry.entries.now (state_of view.entry)))) }
    ensures prefix { TakesPrefix (S.written sink.old) (S.written sink.new) (compact_text
        (json_report view.entry.image.now view.entry.entries.now (state_of view.entry))) }
    ensures failures { S.failures sink.new ≡ S.failures sink.old + failures_of result }
    ensures identity { S.identity sink.new ≡ S.identity sink.old }
{
    let mut out = String::with_capacity(alloc, PIECE)?;
    put_parts(alloc, &mut out, sink, view)?;
    write_end(&mut out, view.entries)?;
    put_whole(sink, out.as_bytes())?;
    Ok(())
}
