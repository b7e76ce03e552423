//! What one line says.
#![tactic(auto, unfolding(crate::proofs::Unfold::statements))]

ghost use Rattle.std.specs.Prelude.{◌≡◌, ◌≤◌, ◌<◌, ◌+◌, ◌^◌, length, min};
ghost use Rattle.condition_texts.specs.Conditions.{condition_of};
ghost use Rattle.explore_properties.specs.Reading.{
  after_word,
  claim_of,
  condition_statement,
  first_word,
  GivesByte,
  statement_of,
  sweep_statement,
  when_of,
};
ghost use Rattle.listing_maps.specs.Names.{names_of};

use crate::claims::{Claim, When};
use crate::fault::LineFault;
use cheri_model::Image;
use cheri_model::table::found_at;
use condition_texts::{TextFault, read_condition};
use explore_sweeps::{Sweep, sweep_of};
use listing_maps::Names;
use std::alloc::Global;

const WHENS: &[(&str, When)] = &[
    ("never", When::Never),
    ("always", When::Always),
    ("sometimes", When::Sometimes),
    ("finally", When::Finally),
];

/// What a line says: a claim, or a sweep that is allowed, whose range begins at a byte of the line.
#[derive(Drop)]
pub(crate) enum Statement {
    Claim(Claim),
    Sweep(Sweep, usize),
}

/// What properties are read for: an image, and what they may name beside its listing.
#[derive(Clone, Copy)]
pub(crate) struct Reader<'a> {
    pub names: &'a Names<'a>,
    pub image: &'a Image,
}

/// Where a part of a line is: it begins at a byte, and the line has so many.
#[derive(Clone, Copy)]
pub(crate) struct Span {
    pub begin: usize,
    pub end: usize,
}

/// When a condition holds by a claim that begins with this word.
fn when_of(word: &str) -> Option<When>
    ensures { result ≡ when_of word.now }
{
    found_at(WHENS, word.as_bytes())
}

/// The first word of a text, and what comes after the space behind it.
fn parted(text: &str) -> (&str, &str)
    ensures word { result.0.now ≡ first_word text.now }
    ensures rest { result.1.now ≡ after_word text.now }
{
    match text.split_once(' ') {
        Some(parts) => parts,
        None => (text, ""),
    }
}

/// The byte of a line of a fault at this byte of its part.
fn fault_byte(span: Span, byte: usize) -> usize
    ensures { result ≡ min (span.begin + byte) span.end }
{
    match span.begin.checked_add(byte) {
        Some(at) => at.min(span.end),
        None => span.end,
    }
}

/// A sweep that this part of a line writes.
fn sweep_statement(span: Span, text: &str) -> Result<Statement, LineFault>
    ensures { GivesByte result (sweep_statement span.begin span.end text.now) }
{
    match sweep_of(text.as_bytes()) {
        Some(sweep) => Ok(Statement::Sweep(sweep, span.begin)),
        None => Err(LineFault::Byte(fault_byte(span, 0))),
    }
}

impl Reader<'_> {
    /// A claim on a condition that this part of a line writes.
    fn condition_statement(
        self,
        alloc: Global,
        span: Span,
        when: When,
        text: &str,
    ) -> Result<Statement, LineFault>
        ensures { GivesByte result (condition_statement span.begin span.end when
            (condition_of (names_of self.entry.names.now) self.entry.image.now text.now)) }
    {
        match read_condition(alloc, self.names, self.image, text) {
            Ok(condition) => Ok(Statement::Claim(Claim::Holds(when, condition))),
            Err(TextFault::Condition(byte)) => Err(LineFault::Byte(fault_byte(span, byte))),
            Err(TextFault::Place(_)) => Err(LineFault::NoMemory),
            Err(TextFault::NoMemory) => Err(LineFault::NoMemory),
        }
    }

    /// What this part of a line says.
    pub(crate) fn statement(
        self,
        alloc: Global,
        span: Span,
        text: &str,
    ) -> Result<Statement, LineFault>
        requires room { span.begin + length text.now < 2 ^ 63 }
        ensures { GivesByte result (statement_of (names_of self.entry.names.now)
            self.entry.image.now span.begin span.end text.now) }
    {
        if text == "ends" {
            return Ok(Statement::Claim(Claim::Ends));
        }
        if text == "ends fairly" {
            return Ok(Statement::Claim(Claim::EndsFairly));
        }
        let (word, rest) = parted(text);
        let begin = span.begin + word.len() + 1;
        let inside = Span {
            begin,
            end: span.end,
        };
        if word == "ends" {
            return Err(LineFault::Byte(begin));
        }
        if word == "sweep" {
            return sweep_statement(inside, rest);
        }
        match when_of(word) {
            Some(when) => self.condition_statement(alloc, inside, when, rest),
            None => Err(LineFault::Byte(span.begin)),
        }
    }
}
