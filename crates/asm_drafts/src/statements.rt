//! Statements, one after another.
#![tactic(auto, unfolding(crate::proofs::Unfold::statements))]

ghost use Rattle.std.specs.Prelude.{◌≡◌, map};
ghost use Rattle.asm_tokens.specs.Tokens.{token_parts};
ghost use Rattle.asm_statements.specs.Statements.{statement_parts};
ghost use Rattle.asm_drafts.specs.Drafts.{Drafts, draft_parts};
ghost use Rattle.asm_drafts.specs.Statements.{
  body_put,
  refused_where_kept,
  section_put,
  statement_put,
  went_back,
};

use crate::draft::{Draft, end};
use crate::sections::Entry;
use asm_chunks::{ChunkKind, SectionKind};
use asm_expressions::fault_at;
use asm_statements::{Body, Statement};
use asm_tokens::{AsmFault, AsmFaultKind, Token};
use std::alloc::Global;

impl<'a> Draft<'a> {
    /// Refuses what a token names, unless nothing is kept of the chunk that the file goes on in.
    fn refuse_where_kept(
        &self,
        tokens: &[Token<'a>],
        kind: AsmFaultKind,
        at: usize,
    ) -> Result<(), AsmFault>
        ensures { result ≡ refused_where_kept (map token_parts tokens.now) (draft_parts self.now)
            kind at }
    {
        if self.is_here(ChunkKind::Dropped) {
            Ok(())
        } else {
            Err(fault_at(tokens, kind, at))
        }
    }

    /// Goes on in another section.
    fn put_section(
        &mut self,
        tokens: &[Token<'a>],
        statement: &Statement,
        at: usize,
        entry: Entry,
        flags: Option<SectionKind>,
    ) -> Result<(), AsmFault>
        ensures { Drafts result (draft_parts self.new) (section_put (map token_parts tokens.now)
            (draft_parts self.old) (statement_parts statement.now) at entry flags) }
    {
        end(statement.fault)?;
        self.enter(tokens, at, entry, flags)
    }

    /// Goes back to the chunk before the last change.
    fn put_previous(&mut self, statement: &Statement) -> Result<(), AsmFault>
        ensures { Drafts result (draft_parts self.new)
            (went_back (draft_parts self.old) (statement_parts statement.now)) }
    {
        end(statement.fault)?;
        self.chunks.go_back();
        Ok(())
    }

    /// What a statement is after its labels, of a number in its file. `entry` is the section that
    /// it names, if it names one. Fails at the first token at which the statement can't go on.
    pub fn put_body(
        &mut self,
        alloc: Global,
        tokens: &[Token<'a>],
        number: usize,
        statement: &Statement,
        entry: Entry,
    ) -> Result<(), AsmFault>
        ensures { Drafts result (draft_parts self.new) (body_put (map token_parts tokens.now)
            (draft_parts self.old) number (statement_parts statement.now) entry) }
    {
        match statement.body {
            Body::Nothing => end(statement.fault),
            Body::Instruction(at, operation) => {
                self.put_instruction(alloc, tokens, statement, at, operation)
            }
            Body::OutsideInstruction(at) => {
                self.refuse_where_kept(tokens, AsmFaultKind::Profile, at)
            }
            Body::UnknownInstruction(at) => {
                self.refuse_where_kept(tokens, AsmFaultKind::Statement, at)
            }
            Body::PlainSection(at) => {
                self.put_section(tokens, statement, at, entry, Some(entry.named))
            }
            Body::Section(at, _, flags) => self.put_section(tokens, statement, at, entry, flags),
            Body::Previous => self.put_previous(statement),
            Body::Global => {
                self.put_wanted(tokens, statement.operands.as_slice())?;
                end(statement.fault)
            }
            Body::Set(at) => self.put_set(alloc, tokens, number, statement, at),
            Body::Size(_) => end(statement.fault),
            Body::Comm(at) => self.put_common(alloc, tokens, statement, at),
            Body::Align(at) => self.put_align(alloc, tokens, statement, at),
            Body::Balign(at) => self.put_balign(alloc, tokens, statement, at),
            Body::Data(at, width) => self.put_data(tokens, statement, at, width),
            Body::Chericap(at) => self.put_chericap(tokens, statement, at),
            Body::Zero(at) => self.put_zeros(alloc, tokens, statement, at),
            Body::Ascii(at) => self.put_strings(alloc, tokens, statement, at, 0),
            Body::Asciz(at) => self.put_strings(alloc, tokens, statement, at, 1),
            Body::OutsideDirective(at) => {
                self.refuse_where_kept(tokens, AsmFaultKind::Profile, at)
            }
            Body::UnknownDirective(at) => Err(fault_at(tokens, AsmFaultKind::Statement, at)),
        }
    }

    /// The statement of a number in its file. `entry` is the section that it names, if it names
    /// one. Fails at the first token at which it can't go on.
    pub fn put_statement(
        &mut self,
        alloc: Global,
        tokens: &[Token<'a>],
        number: usize,
        statement: &Statement,
        entry: Entry,
    ) -> Result<(), AsmFault>
        ensures { Drafts result (draft_parts self.new) (statement_put (map token_parts tokens.now)
            (draft_parts self.old) number (statement_parts statement.now) entry) }
    {
        self.put_labels(tokens, statement.first, statement.labels)?;
        self.put_body(alloc, tokens, number, statement, entry)
    }
}
