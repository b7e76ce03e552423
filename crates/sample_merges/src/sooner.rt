//! Which of two lists of spans has the next one.

ghost use Rattle.std.specs.Prelude.{◌≡◌, ◌∷◌, []};
ghost use Rattle.sample_merges.specs.Spans.{AreSpans};
ghost use Rattle.sample_merges.specs.Sooner.{IsSooner};

use sample_texts::Span;

/// Which of two lists of spans has the next one, and what comes after it there.
#[derive(Clone, Copy)]
pub(crate) enum Sooner<'s> {
    /// Both are empty.
    Neither,
    /// The first list: its first span comes before all runs of the other.
    One(Span, &'s [Span]),
    /// The other list: its first span comes before all runs of the first.
    Other(Span, &'s [Span]),
    /// A run is in both.
    Both,
}

/// Which of two lists comes first, where each has a span and these after it.
fn sooner_of<'s>(
    one: Span,
    after_one: &'s [Span],
    other: Span,
    after_other: &'s [Span],
) -> Sooner<'s>
    requires one { AreSpans (one ∷ after_one.now) }
    requires other { AreSpans (other ∷ after_other.now) }
    ensures { IsSooner (one ∷ after_one.now) (other ∷ after_other.now) result }
{
    if one.last < other.first {
        return Sooner::One(one, after_one);
    }
    if other.last < one.first {
        return Sooner::Other(other, after_other);
    }
    Sooner::Both
}

/// Which of two lists comes first, of which the first has a span and these after it.
fn sooner_from<'s>(span: Span, rest: &'s [Span], other: &'s [Span]) -> Sooner<'s>
    requires one { AreSpans (span ∷ rest.now) }
    requires other { AreSpans other.now }
    ensures { IsSooner (span ∷ rest.now) other.now result }
{
    match other.split_first() {
        None => Sooner::One(span, rest),
        Some((first, after)) => sooner_of(span, rest, *first, after),
    }
}

/// Which of two lists comes first, where the first is empty.
fn sooner_in(other: &[Span]) -> Sooner<'_>
    ensures { IsSooner [] other.now result }
{
    match other.split_first() {
        None => Sooner::Neither,
        Some((first, after)) => Sooner::Other(*first, after),
    }
}

/// Which of two lists comes first.
pub(crate) fn sooner_list<'s>(one: &'s [Span], other: &'s [Span]) -> Sooner<'s>
    requires one { AreSpans one.now }
    requires other { AreSpans other.now }
    ensures { IsSooner one.now other.now result }
{
    match one.split_first() {
        None => sooner_in(other),
        Some((first, after)) => sooner_from(*first, after, other),
    }
}
