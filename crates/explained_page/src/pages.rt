//! The page of what a core took.
#![tactic(auto, using(crate::proofs::PageLemmas::texts_follow), unfolding(crate::proofs::Unfold::page))]

ghost use Rattle.std.specs.Prelude.{◌≡◌, ◌+◌, OnOk};
ghost use Rattle.std.specs.Io.KnownBytes.{Appends};
ghost use Rattle.cheri_model.specs.runs.Replay.{operations_of};
ghost use Rattle.sinks.specs.Sinks.{TakesPrefix};
ghost use Rattle.sinks.specs.WriteFaults.{failures_of};
ghost use Rattle.explained_page.specs.Page.{
  explanation_part,
  state_part,
  listing_part,
  page_of,
  is_too_long,
};

use crate::constants::{page_end, page_head, page_listing, page_state};
use crate::positions::follow_to;
use crate::script_text::write_script_text;
use crate::state::write_state;
use cores::Core;
use explanations::{InstructionLines, Selection, write_json};
use sinks::{Sink, WriteFault, put_whole};
use std::alloc::Global;

/// The most events that a page shows.
pub const MOST_EVENTS: usize = 5_000;

/// Whether a page would show too many events: those from `first` to `last` of a run that has so
/// many.
pub(crate) fn is_too_long(first: u32, last: u32, events: usize) -> bool
    ensures { result ≡ is_too_long first last events }
{
    let end = events.min(last as usize + 1);
    end.saturating_sub(first as usize) > MOST_EVENTS
}

/// Writes the page up to the end of the explanation.
fn put_explanation<S: Sink>(
    alloc: Global,
    core: &Core,
    lines: &[u32],
    selection: Selection,
    sink: &mut S,
) -> Result<(), WriteFault>
    ensures whole { OnOk result (Appends (S.written sink.old) (S.written sink.new)
        (explanation_part core.now.image lines.now selection (operations_of core.now.trace))) }
    ensures prefix { TakesPrefix (S.written sink.old) (S.written sink.new)
        (explanation_part core.now.image lines.now selection (operations_of core.now.trace)) }
    ensures failures { S.failures sink.new ≡ S.failures sink.old + failures_of result }
    ensures identity { S.identity sink.new ≡ S.identity sink.old }
{
    put_whole(sink, page_head().as_bytes())?;
    let lines = InstructionLines::new(lines, None);
    write_json(alloc, core, &lines, selection, sink)?;
    Ok(())
}

/// Writes the page from there up to the end of the state.
fn put_state<S: Sink>(
    alloc: Global,
    core: &Core,
    first: u32,
    sink: &mut S,
) -> Result<(), WriteFault>
    ensures whole { OnOk result (Appends (S.written sink.old) (S.written sink.new)
        (state_part core.now.image first (operations_of core.now.trace))) }
    ensures prefix { TakesPrefix (S.written sink.old) (S.written sink.new)
        (state_part core.now.image first (operations_of core.now.trace)) }
    ensures failures { S.failures sink.new ≡ S.failures sink.old + failures_of result }
    ensures identity { S.identity sink.new ≡ S.identity sink.old }
{
    let follower = follow_to(alloc, core, first as usize)?;
    let mut out = String::new(alloc);
    out.push_str(page_state())?;
    write_state(alloc, &mut out, &follower)?;
    put_whole(sink, out.as_bytes())?;
    Ok(())
}

/// Writes the page from there on.
fn put_listing<S: Sink>(alloc: Global, listing: &[u8], sink: &mut S) -> Result<(), WriteFault>
    ensures whole { OnOk result (Appends (S.written sink.old) (S.written sink.new)
        (listing_part listing.now)) }
    ensures prefix { TakesPrefix (S.written sink.old) (S.written sink.new)
        (listing_part listing.now) }
    ensures failures { S.failures sink.new ≡ S.failures sink.old + failures_of result }
    ensures identity { S.identity sink.new ≡ S.identity sink.old }
{
    let mut out = Vec::new(alloc);
    out.extend_from_slice(page_listing().as_bytes())?;
    write_script_text(&mut out, listing)?;
    out.extend_from_slice(page_end().as_bytes())?;
    put_whole(sink, out.as_slice())?;
    Ok(())
}

/// Writes the page of what a core took; `lines` has the number of each instruction's line. After a
/// fault the sink took a prefix of it.
pub(crate) fn put_page<S: Sink>(
    alloc: Global,
    core: &Core,
    listing: &[u8],
    lines: &[u32],
    selection: Selection,
    sink: &mut S,
) -> Result<(), WriteFault>
    ensures whole { OnOk result (Appends (S.written sink.old) (S.written sink.new)
        (page_of core.now.image listing.now lines.now selection (operations_of core.now.trace))) }
    ensures prefix { TakesPrefix (S.written sink.old) (S.written sink.new)
        (page_of core.now.image listing.now lines.now selection (operations_of core.now.trace)) }
    ensures failures { S.failures sink.new ≡ S.failures sink.old + failures_of result }
    ensures identity { S.identity sink.new ≡ S.identity sink.old }
{
    put_explanation(alloc, core, lines, selection, sink)?;
    put_state(alloc, core, selection.first, sink)?;
    put_listing(alloc, listing, sink)?;
    Ok(())
}
