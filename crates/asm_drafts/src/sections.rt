//! Sections.
#![tactic(auto, unfolding(crate::proofs::Unfold::sections))]

ghost use Rattle.std.specs.Prelude.{◌≡◌, map};
ghost use Rattle.asm_tokens.specs.Tokens.{token_parts};
ghost use Rattle.asm_drafts.specs.Drafts.{Drafts, draft_parts};
ghost use Rattle.asm_drafts.specs.Sections.{entered_at};

use crate::draft::{Draft, chunk_fault};
use asm_chunks::SectionKind;
use asm_tokens::{AsmFault, Token};

/// The section that a statement names: its number, and the kind that its name says.
#[derive(Clone, Copy, Debug)]
pub struct Entry {
    pub section: u32,
    pub named: SectionKind,
}

impl Draft<'_> {
    /// Goes on in a section, of which flags may say the kind. Fails with `Section`, at the token of
    /// a number, where it has another kind in this file.
    pub(crate) fn enter(
        &mut self,
        tokens: &[Token],
        at: usize,
        entry: Entry,
        flags: Option<SectionKind>,
    ) -> Result<(), AsmFault>
        ensures { Drafts result (draft_parts self.new)
            (entered_at (map token_parts tokens.now) at entry flags (draft_parts self.old)) }
    {
        match self.chunks.enter(entry.section, flags, entry.named) {
            Ok(()) => Ok(()),
            Err(fault) => Err(chunk_fault(tokens, at, fault)),
        }
    }
}
