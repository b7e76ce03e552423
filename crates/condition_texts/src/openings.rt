//! The words that begin an atom, and the verbs that follow a hart.
#![tactic(auto, unfolding(crate::proofs::Unfold::openings))]

ghost use Rattle.std.specs.Prelude.{◌≡◌, codes, if◌then◌else◌};
ghost use Rattle.condition_texts.specs.Reading.{
  asked_of,
  count_of,
  count_or_source,
  is_plural,
  noun_of,
  opening_of,
  verb_of,
};

use crate::places::{hart_numbered, source_of};
use cheri_model::Image;
use cheri_model::table::found_at;
use conditions::{Comparison, Source, Subject};

/// How an atom begins.
#[derive(Clone, Copy, Debug)]
pub(crate) enum Opening {
    Source(Source),
    Hart(Subject),
    Count,
    Quantifier(Quantifier),
}

/// How many harts are asked for.
#[derive(Clone, Copy, Debug)]
pub(crate) enum Quantifier {
    Any,
    No,
    Two,
    All,
}

/// What is said of a hart.
#[derive(Clone, Copy, Debug)]
pub(crate) enum Verb {
    Is,
    Reaches,
    At,
    In,
}

const QUANTIFIERS: &[(&str, Quantifier)] = &[
    ("any", Quantifier::Any),
    ("no", Quantifier::No),
    ("two", Quantifier::Two),
    ("all", Quantifier::All),
];

const PLURAL_VERBS: &[(&str, Verb)] = &[
    ("are", Verb::Is),
    ("reach", Verb::Reaches),
    ("at", Verb::At),
    ("in", Verb::In),
];

const VERBS: &[(&str, Verb)] = &[
    ("is", Verb::Is),
    ("reaches", Verb::Reaches),
    ("at", Verb::At),
    ("in", Verb::In),
];

/// The verb that a word is, after `harts` or after one hart.
pub(crate) fn verb_of(plural: bool, word: &[u8]) -> Option<Verb>
    ensures { result ≡ verb_of plural word.now }
{
    if plural {
        found_at(PLURAL_VERBS, word)
    } else {
        found_at(VERBS, word)
    }
}

/// The count of harts that a word begins.
fn count_of(word: &[u8]) -> Option<Opening>
    ensures { result ≡ count_of word.now }
{
    if word == b"count".as_slice() {
        return Some(Opening::Count);
    }
    let quantifier = found_at(QUANTIFIERS, word)?;
    Some(Opening::Quantifier(quantifier))
}

/// What begins with a word that is no hart: a count of harts, but not where each hart is spoken of,
/// or a number.
fn count_or_source(image: &Image, each: bool, word: &[u8]) -> Option<Opening>
    ensures { result ≡ count_or_source image.now each word.now }
{
    if let Some(count) = count_of(word) {
        return if each { None } else { Some(count) };
    }
    let source = source_of(image, each, word)?;
    Some(Opening::Source(source))
}

/// What a word begins.
pub(crate) fn opening_of(image: &Image, each: bool, word: &[u8]) -> Option<Opening>
    ensures { result ≡ opening_of image.now each word.now }
{
    match word {
        [digit @ b'0'..=b'9'] => {
            let hart = hart_numbered(image, *digit - b'0')?;
            Some(Opening::Hart(Subject::Numbered(hart)))
        }
        [b'h'] => {
            if each {
                Some(Opening::Hart(Subject::Each))
            } else {
                None
            }
        }
        _ => count_or_source(image, each, word),
    }
}

impl Quantifier {
    /// Whether it is of `harts`.
    pub(crate) fn is_plural(self) -> bool
        ensures { result ≡ is_plural self }
    {
        matches!(self, Quantifier::Two | Quantifier::All)
    }

    /// What it is of.
    pub(crate) fn noun(self) -> &'static [u8]
        ensures { result.now ≡ noun_of self }
    {
        if self.is_plural() { b"harts" } else { b"hart" }
    }

    /// How the count of harts compares that it asks for, of so many.
    pub(crate) fn asked_of(self, harts: usize) -> (Comparison, u128)
        ensures { result ≡ asked_of self harts }
    {
        match self {
            Quantifier::Any => (Comparison::AtLeast, 1),
            Quantifier::No => (Comparison::Equal, 0),
            Quantifier::Two => (Comparison::AtLeast, 2),
            Quantifier::All => (Comparison::AtLeast, harts as u128),
        }
    }
}
