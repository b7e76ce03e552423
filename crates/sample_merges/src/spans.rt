//! Numbers of runs, as spans.

ghost use Rattle.std.specs.Prelude.{◌≡◌, ◌<◌, ◌≤◌, ◌∷◌, ◌++◌, [], IfNone, IfOk, IfSome, OnOk};
ghost use Rattle.sample_merges.specs.Spans.{AreBelow, AreSpans, IsJoined, ShareRun};
ghost use Rattle.sample_merges.specs.Sooner.{IsSooner};

use crate::sooner::{Sooner, sooner_list};
use sample_texts::Span;
use std::alloc::{AllocError, Global};

/// Adds two spans, or one where they touch.
fn push_both(spans: &mut Vec<Span>, last: Span, span: Span) -> Result<(), AllocError>
    requires spans { AreSpans (spans.old.items ++ last ∷ []) }
    requires later { last.last < span.first }
    requires some { span.first ≤ span.last }
    ensures { OnOk result (IsJoined (spans.old.items ++ last ∷ []) (span ∷ []) spans.new.items) }
{
    if last.last + 1 == span.first {
        spans.push(Span {
            first: last.first,
            last: span.last,
        })?;
    } else {
        spans.push(last)?;
        spans.push(span)?;
    }
    Ok(())
}

/// Adds a span after all others.
fn push_span(spans: &mut Vec<Span>, span: Span) -> Result<(), AllocError>
    requires spans { AreSpans spans.old.items }
    requires later { AreBelow spans.old.items span.first }
    requires some { span.first ≤ span.last }
    ensures { OnOk result (IsJoined spans.old.items (span ∷ []) spans.new.items) }
{
    match spans.pop() {
        Some(last) => push_both(spans, last, span),
        None => {
            spans.push(span)?;
            Ok(())
        }
    }
}

/// The spans of the runs of both lists; `None` where a run is in both. Fails only when out of
/// memory.
pub fn join_spans(
    alloc: Global,
    one: &[Span],
    other: &[Span],
) -> Result<Option<Vec<Span>>, AllocError>
    requires one { AreSpans one.now }
    requires other { AreSpans other.now }
    ensures joined { IfOk result (λ joined. IfSome joined (λ whole.
        IsJoined one.now other.now whole.items)) }
    ensures shared { IfOk result (λ joined. IfNone joined (ShareRun one.now other.now)) }
{
    let mut whole = Vec::new(alloc);
    let mut left = one;
    let mut right = other;
    loop {
        match sooner_list(left, right) {
            Sooner::Neither => return Ok(Some(whole)),
            Sooner::Both => return Ok(None),
            Sooner::One(span, rest) => {
                push_span(&mut whole, span)?;
                left = rest;
            }
            Sooner::Other(span, rest) => {
                push_span(&mut whole, span)?;
                right = rest;
            }
        }
    }
}
