//! Reading the words of a condition, as far as no other condition is in them.
#![tactic(auto, unfolding(crate::proofs::Unfold::reading))]

ghost use Rattle.std.specs.Prelude.{
  ◌≡◌,
  ◌+◌,
  ◌<◌,
  ◌≤◌,
  IfOk,
  IfSome,
  IsTrue,
  length,
  option_map,
  slice_get,
};
ghost use Rattle.condition_texts.specs.Places.{number_in};
ghost use Rattle.condition_texts.specs.Atoms.{
  comparison_of,
  status_of,
  address_in_word,
  permissions_in,
};
ghost use Rattle.condition_texts.specs.Terms.{target_in, range_in, term_of};
ghost use Rattle.condition_texts.specs.Reading.{
  asked_of_count,
  compared,
  context_of,
  is_at,
  only,
  opening_of,
  said_after,
  said_of,
  says_at,
  verb_of,
};

use crate::atoms::{address_in_word, comparison_of, permissions_in, status_of};
use crate::openings::{Opening, Verb, opening_of, verb_of};
use crate::places::number_in;
use crate::terms::{range_in, target_in, term_of};
use crate::words::Word;
use cheri_model::{Image, Perms};
use conditions::{Atom, Comparison, Source, StatusTest, Subject, Term};
use listing_maps::Names;

/// What a condition is read from: what it may name beside its listing, the image, and its words.
#[derive(Clone, Copy)]
pub(crate) struct Reader<'a> {
    pub(crate) names: &'a Names<'a>,
    pub(crate) image: &'a Image,
    pub(crate) words: &'a [Word<'a>],
}

impl<'a> Reader<'a> {
    /// The word of a number.
    fn word(&self, at: usize) -> Option<&'a [u8]>
        ensures is { option_map (λ word. word.now) result
            ≡ option_map (λ word. word.1) (slice_get (context_of self.now).words at) }
        ensures room { IfSome result (λ _. at < length self.now.words.now) }
    {
        match self.words.get(at) {
            Some(word) => Some(word.text),
            None => None,
        }
    }

    /// Whether the word of a number is this one.
    pub(crate) fn is_at(&self, at: usize, wanted: &[u8]) -> bool
        ensures is { result ≡ is_at (context_of self.now) at wanted.now }
        ensures room { IsTrue result → at < length self.now.words.now }
    {
        match self.word(at) {
            Some(word) => word == wanted,
            None => false,
        }
    }

    /// The number after that of this word, which has to be there.
    pub(crate) fn only(&self, at: usize, wanted: &[u8]) -> Result<usize, usize>
        ensures is { result ≡ only (context_of self.now) at wanted.now }
        ensures room { IfOk result (λ next. (at < next) × (next ≤ length self.now.words.now)) }
    {
        if self.is_at(at, wanted) {
            Ok(at + 1)
        } else {
            Err(at)
        }
    }
}

impl Reader<'_> {
    /// The comparison at a word.
    fn comparison_at(&self, at: usize) -> Result<Comparison, usize>
        ensures is { result ≡ says_at (context_of self.now) comparison_of at }
        ensures room { IfOk result (λ _. at < length self.now.words.now) }
    {
        match self.word(at) {
            Some(word) => comparison_of(word).ok_or(at),
            None => Err(at),
        }
    }

    /// The number at a word.
    fn number_at(&self, at: usize) -> Result<u128, usize>
        ensures is { result ≡ says_at (context_of self.now) number_in at }
        ensures room { IfOk result (λ _. at < length self.now.words.now) }
    {
        match self.word(at) {
            Some(word) => number_in(word).ok_or(at),
            None => Err(at),
        }
    }

    /// The status at a word.
    fn status_at(&self, at: usize) -> Result<StatusTest, usize>
        ensures is { result ≡ says_at (context_of self.now) status_of at }
        ensures room { IfOk result (λ _. at < length self.now.words.now) }
    {
        match self.word(at) {
            Some(word) => status_of(word).ok_or(at),
            None => Err(at),
        }
    }

    /// The address at a word.
    fn address_at(&self, at: usize) -> Result<u64, usize>
        ensures is { result ≡ says_at (context_of self.now) address_in_word at }
        ensures room { IfOk result (λ _. at < length self.now.words.now) }
    {
        match self.word(at) {
            Some(word) => address_in_word(word).ok_or(at),
            None => Err(at),
        }
    }

    /// The permission set at a word.
    fn permissions_at(&self, at: usize) -> Result<Perms, usize>
        ensures is { result ≡ says_at (context_of self.now) permissions_in at }
        ensures room { IfOk result (λ _. at < length self.now.words.now) }
    {
        match self.word(at) {
            Some(word) => permissions_in(word).ok_or(at),
            None => Err(at),
        }
    }

    /// The address of the target at a word.
    fn target_at(&self, at: usize) -> Result<u64, usize>
        ensures is { result ≡ says_at (context_of self.now)
            (target_in (context_of self.now).labels) at }
        ensures room { IfOk result (λ _. at < length self.now.words.now) }
    {
        match self.word(at) {
            Some(word) => target_in(self.names, word).ok_or(at),
            None => Err(at),
        }
    }

    /// The two addresses of the range at a word.
    fn range_at(&self, at: usize) -> Result<(u64, u64), usize>
        ensures is { result ≡ says_at (context_of self.now)
            (range_in (context_of self.now).labels) at }
        ensures room { IfOk result (λ _. at < length self.now.words.now) }
    {
        match self.word(at) {
            Some(word) => range_in(self.names, word).ok_or(at),
            None => Err(at),
        }
    }

    /// What a number is compared with, at a word.
    fn term_at(&self, each: bool, at: usize) -> Result<Term, usize>
        ensures is { result ≡ says_at (context_of self.now)
            (term_of (context_of self.now).labels (context_of self.now).image each) at }
        ensures room { IfOk result (λ _. at < length self.now.words.now) }
    {
        let Some(word) = self.word(at) else {
            return Err(at);
        };
        match term_of(self.names, self.image, each, word) {
            Some(term) => Ok(term),
            None => Err(at),
        }
    }

    /// The verb at a word.
    fn verb_at(&self, plural: bool, at: usize) -> Result<Verb, usize>
        ensures is { result ≡ says_at (context_of self.now) (verb_of plural) at }
        ensures room { IfOk result (λ _. at < length self.now.words.now) }
    {
        match self.word(at) {
            Some(word) => verb_of(plural, word).ok_or(at),
            None => Err(at),
        }
    }

    /// What begins with a word.
    pub(crate) fn opening_at(&self, each: bool, at: usize) -> Result<Opening, usize>
        ensures is { result ≡ says_at (context_of self.now)
            (opening_of (context_of self.now).image each) at }
        ensures room { IfOk result (λ _. at < length self.now.words.now) }
    {
        let Some(word) = self.word(at) else {
            return Err(at);
        };
        match opening_of(self.image, each, word) {
            Some(opening) => Ok(opening),
            None => Err(at),
        }
    }

    /// What is said of a hart after a verb.
    fn said_after(&self, who: Subject, verb: Verb, at: usize) -> Result<(Atom, usize), usize>
        ensures is { result ≡ said_after (context_of self.now) who verb at }
        ensures room { IfOk result (λ read.
            (at < read.1) × (read.1 ≤ length self.now.words.now)) }
    {
        match verb {
            Verb::Is => {
                let status = self.status_at(at)?;
                Ok((Atom::HasStatus(who, status), at + 1))
            }
            Verb::Reaches => {
                let addr = self.address_at(at)?;
                let perms = self.permissions_at(at + 1)?;
                Ok((Atom::Reaches(who, addr, perms), at + 2))
            }
            Verb::At => {
                let addr = self.target_at(at)?;
                Ok((Atom::IsAt(who, addr), at + 1))
            }
            Verb::In => {
                let (first, second) = self.range_at(at)?;
                Ok((Atom::IsIn(who, first, second), at + 1))
            }
        }
    }

    /// What is said of a hart: a verb, and what it asks for.
    pub(crate) fn said_of(
        &self,
        plural: bool,
        who: Subject,
        at: usize,
    ) -> Result<(Atom, usize), usize>
        ensures is { result ≡ said_of (context_of self.now) plural who at }
        ensures room { IfOk result (λ read.
            (at < read.1) × (read.1 ≤ length self.now.words.now)) }
    {
        let verb = self.verb_at(plural, at)?;
        self.said_after(who, verb, at + 1)
    }

    /// How a number compares.
    pub(crate) fn compared(
        &self,
        each: bool,
        source: Source,
        at: usize,
    ) -> Result<(Atom, usize), usize>
        ensures is { result ≡ compared (context_of self.now) each source at }
        ensures room { IfOk result (λ read.
            (at < read.1) × (read.1 ≤ length self.now.words.now)) }
    {
        let comparison = self.comparison_at(at)?;
        let term = self.term_at(each, at + 1)?;
        Ok((Atom::Compares(source, comparison, term), at + 2))
    }

    /// How a count of harts compares.
    pub(crate) fn asked_of_count(&self, at: usize) -> Result<((Comparison, u128), usize), usize>
        ensures is { result ≡ asked_of_count (context_of self.now) at }
        ensures room { IfOk result (λ read.
            (at < read.1) × (read.1 ≤ length self.now.words.now)) }
    {
        let comparison = self.comparison_at(at)?;
        let number = self.number_at(at + 1)?;
        Ok(((comparison, number), at + 2))
    }
}
