//! Where the instructions of a listing are.
#![tactic(auto, using(crate::proofs::LineLemmas::sources), unfolding(crate::specs::InstructionLines::source_of))]

ghost use Rattle.std.specs.Prelude.{◌≡◌, is_some, option_map};
ghost use Rattle.explanations.specs.InstructionLines.{
  line_of,
  shown_source,
  shown_sources,
  source_of,
};

use asm_map_reader::Source;
use std::marker::Model;

/// Where the instructions of a listing are: on which of its lines, and, where a map of its program
/// is there, what they come from.
#[derive(Drop)]
pub struct InstructionLines<'a> {
    numbers: &'a [u32],
    sources: Option<&'a [Source<'a>]>,
}

impl<'a> Model for InstructionLines<'a> {
    ghost use Rattle.std.specs.Prelude.{option_map};
    ghost use Rattle.explanations.specs.InstructionLines.{LineParts, shown_sources};

    ghost Value = { LineParts };

    ghost view = { λ l. record {
      numbers = l.numbers.now;
      sources = option_map shown_sources l.sources;
    } };
}

impl<'a> InstructionLines<'a> {
    /// Instructions on these lines, which come from these places, if a map says so.
    pub fn new(numbers: &'a [u32], sources: Option<&'a [Source<'a>]>) -> InstructionLines<'a>
        ensures { result ≡ record {
          numbers = numbers.entry.now;
          sources = option_map shown_sources sources.entry;
        } }
    {
        InstructionLines { numbers, sources }
    }

    /// Whether a map says what instructions come from.
    pub(crate) fn has_sources(&self) -> bool
        ensures { result ≡ is_some self.now.sources }
    {
        self.sources.is_some()
    }

    /// The line of an instruction, by the instruction's number: 0 where it has none.
    pub(crate) fn line_of(&self, number: usize) -> u32
        ensures { result ≡ line_of self.now number }
    {
        if number < self.numbers.len() {
            self.numbers[number]
        } else {
            0
        }
    }

    /// What an instruction comes from, if a map says so.
    pub(crate) fn source_of(&self, number: usize) -> Option<Source<'a>>
        ensures { option_map shown_source result ≡ source_of self.now number }
    {
        let sources = self.sources?;
        if number < sources.len() {
            Some(sources[number])
        } else {
            None
        }
    }
}
