//! The report: the text that shows what a machine started from, its trace, and its state.
#![tactic(auto, unfolding(crate::specs::Report::title_line))]

ghost use Rattle.std.specs.Prelude.{◌≡◌, ◌+◌, ◌++◌, OnOk, string_bytes};
ghost use Rattle.std.specs.Io.KnownBytes.{Appends};
ghost use Rattle.hart.specs.View.{state_of};
ghost use Rattle.report_lines.specs.Lines.{event_line};
ghost use Rattle.report_lines.specs.Texts.{numbered};
ghost use Rattle.reports.specs.Report.{head_lines, report, shown_lines, title_line, version_of};
ghost use Rattle.sinks.specs.Sinks.{TakesAllBut, TakesPrefix};
ghost use Rattle.sinks.specs.WriteFaults.{failures_of};

use crate::state::{put_granules, put_harts};
use cheri_model::{Event, NoMemory};
use hart::View;
use report_lines::{write_count_line, write_event_line, write_image_line};
use sinks::{PIECE, Sink, WriteFault, make_room, put_whole};
use std::alloc::Global;

/// The version of a report of these events: 2 where one is a sweep. So a reader of version 1 reads
/// what it always did wherever nothing was swept.
pub(crate) fn version_of(events: &[Event]) -> u8
    ensures { result ≡ version_of events.now }
{
    for event in events {
        if let Event::Sweep { .. } = event {
            return 2;
        }
    }
    1
}

/// Appends the line of the version.
fn write_title(out: &mut String, version: u8) -> Result<(), NoMemory>
    ensures { OnOk result (string_bytes out.new ≡ string_bytes out.old ++ title_line version) }
{
    writeln!(out, "cheri-sim report {version}")?;
    Ok(())
}

/// Writes the lines of the events.
fn put_events<S: Sink>(out: &mut String, sink: &mut S, events: &[Event]) -> Result<(), WriteFault>
    ensures whole { OnOk result (TakesAllBut (S.written sink.old) (S.written sink.new)
        (string_bytes out.new) (string_bytes out.old ++ numbered event_line 0 events.now)) }
    ensures prefix { TakesPrefix (S.written sink.old) (S.written sink.new)
        (string_bytes out.old ++ numbered event_line 0 events.now) }
    ensures failures { S.failures sink.new ≡ S.failures sink.old + failures_of result }
    ensures identity { S.identity sink.new ≡ S.identity sink.old }
{
    for (number, event) in events.iter().enumerate() {
        write_event_line(out, number, event)?;
        make_room(out, sink)?;
    }
    Ok(())
}

/// Writes the lines of the events, the harts and the granules.
fn put_parts<S: Sink>(out: &mut String, sink: &mut S, view: View<'_>) -> Result<(), WriteFault>
    ensures whole { OnOk result (TakesAllBut (S.written sink.old) (S.written sink.new)
        (string_bytes out.new)
        (string_bytes out.old ++ shown_lines view.entry.entries.now (state_of view.entry))) }
    ensures prefix { TakesPrefix (S.written sink.old) (S.written sink.new)
        (string_bytes out.old ++ shown_lines view.entry.entries.now (state_of view.entry)) }
    ensures failures { S.failures sink.new ≡ S.failures sink.old + failures_of result }
    ensures identity { S.identity sink.new ≡ S.identity sink.old }
{
    put_events(out, sink, view.entries)?;
    put_harts(out, sink, view.harts)?;
    put_granules(out, sink, view.ram)
}

/// Appends the lines of a report before the first entry.
fn write_head(out: &mut String, view: View<'_>) -> Result<(), NoMemory>
    ensures { OnOk result (string_bytes out.new
        ≡ string_bytes out.old ++ head_lines view.entry.image.now view.entry.entries.now) }
{
    write_title(out, version_of(view.entries))?;
    write_image_line(out, view.image)?;
    write_count_line(out, view.entries.len())?;
    Ok(())
}

/// Writes the report of what a view shows, in pieces of at most 64 KiB: report 2 where its trace
/// has a sweep, else report 1. After a fault the sink took a prefix of it.
pub fn write_report<S: Sink>(alloc: Global, view: View<'_>, sink: &mut S) -> Result<(), WriteFault>
    ensures whole { OnOk result (Appends (S.written sink.old) (S.written sink.new)
        (report view.entry.image.now view.entry.entries.now (state_of view.entry))) }
    ensures prefix { TakesPrefix (S.written sink.old) (S.written sink.new)
        (report view.entry.image.now view.entry.entries.now (state_of view.entry)) }
    ensures failures { S.failures sink.new ≡ S.failures sink.old + failures_of result }
    ensures identity { S.identity sink.new ≡ S.identity sink.old }
{
    let mut out = String::with_capacity(alloc, PIECE)?;
    write_head(&mut out, view)?;
    put_parts(&mut out, sink, view)?;
    writeln!(out, "end")?;
    put_whole(sink, out.as_bytes())?;
    Ok(())
}
