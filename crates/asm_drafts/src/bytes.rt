//! Data: numbers, capabilities, bytes that are the same, and strings.
#![tactic(auto, unfolding(crate::proofs::Unfold::bytes))]

ghost use Rattle.std.specs.Prelude.{◌≡◌, ◌*◌, map};
ghost use Rattle.std.specs.List.{list_any};
ghost use Rattle.asm_tokens.specs.Faults.{Gives};
ghost use Rattle.asm_tokens.specs.Strings.{string_of};
ghost use Rattle.asm_tokens.specs.Tokens.{token_parts};
ghost use Rattle.asm_statements.specs.Statements.{statement_parts};
ghost use Rattle.asm_drafts.specs.Drafts.{Drafts, draft_parts, each_put, grown_at};
ghost use Rattle.asm_drafts.specs.Bytes.{
  capability_at,
  chericap_put,
  data_put,
  is_nonzero,
  number_at,
  string_at,
  strings_put,
  unless_code,
  zeros_put,
};

use crate::draft::{Draft, end};
use crate::operands::Limits;
use asm_chunks::{ChunkKind, MAX_CHUNK};
use asm_expressions::{fault_at, text_at};
use asm_statements::{Operand, Statement};
use asm_tokens::{AsmFault, AsmFaultKind, Token, push_string};
use std::alloc::{AllocError, Global};

/// The bytes of a capability.
const CAPABILITY: u32 = 16;

/// Whether bytes have one that isn't 0.
fn is_nonzero(bytes: &[u8]) -> bool
    ensures { result ≡ is_nonzero bytes.now }
{
    bytes.iter().any(|byte| *byte != 0)
}

impl Draft<'_> {
    /// Refuses data in code, at the token of its directive, with `Section`.
    fn unless_code(&self, tokens: &[Token], at: usize) -> Result<(), AsmFault>
        ensures { result ≡ unless_code (map token_parts tokens.now) (draft_parts self.now) at }
    {
        if self.is_here(ChunkKind::Code) {
            Err(fault_at(tokens, AsmFaultKind::Section, at))
        } else {
            Ok(())
        }
    }

    /// One number of a width. Fails with `Size` at the directive's token.
    fn put_number(&mut self, tokens: &[Token], at: usize, width: u8) -> Result<(), AsmFault>
        ensures { Drafts result (draft_parts self.new)
            (grown_at (map token_parts tokens.now) at width (draft_parts self.old)) }
    {
        self.grow(tokens, at, usize::from(width))
    }

    /// So many numbers of a width. Fails with `Size` at the directive's token.
    fn put_numbers(
        &mut self,
        tokens: &[Token],
        at: usize,
        width: u8,
        operands: &[Operand],
    ) -> Result<(), AsmFault>
        ensures { Drafts result (draft_parts self.new)
            (each_put (number_at (map token_parts tokens.now) at width) operands.now
            (draft_parts self.old)) }
    {
        for _operand in operands {
            self.put_number(tokens, at, width)?;
        }
        Ok(())
    }

    /// Numbers of a width.
    pub(crate) fn put_data(
        &mut self,
        tokens: &[Token],
        statement: &Statement,
        at: usize,
        width: u8,
    ) -> Result<(), AsmFault>
        ensures { Drafts result (draft_parts self.new) (data_put (map token_parts tokens.now)
            (draft_parts self.old) (statement_parts statement.now) at width) }
    {
        if self.is_here(ChunkKind::Dropped) {
            return Ok(());
        }
        self.unless_code(tokens, at)?;
        self.put_numbers(tokens, at, width, statement.operands.as_slice())?;
        end(statement.fault)
    }

    /// One capability. Fails with `Range` where it isn't aligned, at its operand.
    fn put_capability(
        &mut self,
        tokens: &[Token],
        at: usize,
        operand: Operand,
    ) -> Result<(), AsmFault>
        ensures { Drafts result (draft_parts self.new)
            (capability_at (map token_parts tokens.now) at operand (draft_parts self.old)) }
    {
        self.grow(tokens, at, CAPABILITY as usize)?;
        if self.chunks.here().size % CAPABILITY != 0 {
            return Err(fault_at(tokens, AsmFaultKind::Range, operand.first));
        }
        self.chunks.raise(CAPABILITY);
        Ok(())
    }

    /// Capabilities, one after another.
    fn put_capabilities(
        &mut self,
        tokens: &[Token],
        at: usize,
        operands: &[Operand],
    ) -> Result<(), AsmFault>
        ensures { Drafts result (draft_parts self.new)
            (each_put (capability_at (map token_parts tokens.now) at) operands.now
            (draft_parts self.old)) }
    {
        for operand in operands {
            self.put_capability(tokens, at, *operand)?;
        }
        Ok(())
    }

    /// `.chericap`.
    pub(crate) fn put_chericap(
        &mut self,
        tokens: &[Token],
        statement: &Statement,
        at: usize,
    ) -> Result<(), AsmFault>
        ensures { Drafts result (draft_parts self.new) (chericap_put (map token_parts tokens.now)
            (draft_parts self.old) (statement_parts statement.now) at) }
    {
        if self.is_here(ChunkKind::Dropped) {
            return Ok(());
        }
        self.unless_code(tokens, at)?;
        self.put_capabilities(tokens, at, statement.operands.as_slice())?;
        end(statement.fault)
    }

    /// Bytes that are the same.
    pub(crate) fn put_zeros(
        &mut self,
        alloc: Global,
        tokens: &[Token],
        statement: &Statement,
        at: usize,
    ) -> Result<(), AsmFault>
        ensures { Drafts result (draft_parts self.new) (zeros_put (map token_parts tokens.now)
            (draft_parts self.old) (statement_parts statement.now) at) }
    {
        if self.is_here(ChunkKind::Dropped) {
            return Ok(());
        }
        self.unless_code(tokens, at)?;
        let limits = Limits {
            below: 0,
            most: u64::from(MAX_CHUNK),
        };
        let count = self.early_if_said(alloc, tokens, statement, 0, limits)?;
        self.judge_fill(alloc, tokens, statement, 1)?;
        end(statement.fault)?;
        self.grow(tokens, at, count.unwrap_or(0) as usize)
    }

    /// One string and so many zeros behind it. In zeros it may have no other byte: fails with
    /// `Section` at its token.
    fn put_string(
        &mut self,
        alloc: Global,
        tokens: &[Token],
        at: usize,
        zeros: u8,
        operand: Operand,
    ) -> Result<(), AsmFault>
        ensures { Drafts result (draft_parts self.new)
            (string_at (map token_parts tokens.now) at zeros operand (draft_parts self.old)) }
    {
        let mut bytes = Vec::new(alloc);
        push_string(&mut bytes, text_at(tokens, operand.first))?;
        if self.is_here(ChunkKind::Zeros) && is_nonzero(bytes.as_slice()) {
            return Err(fault_at(tokens, AsmFaultKind::Section, operand.first));
        }
        self.grow(tokens, at, bytes.len() + usize::from(zeros))
    }

    /// Strings, one after another.
    fn put_each_string(
        &mut self,
        alloc: Global,
        tokens: &[Token],
        at: usize,
        zeros: u8,
        operands: &[Operand],
    ) -> Result<(), AsmFault>
        ensures { Drafts result (draft_parts self.new)
            (each_put (string_at (map token_parts tokens.now) at zeros) operands.now
            (draft_parts self.old)) }
    {
        for operand in operands {
            self.put_string(alloc, tokens, at, zeros, *operand)?;
        }
        Ok(())
    }

    /// Strings with so many zeros behind each.
    pub(crate) fn put_strings(
        &mut self,
        alloc: Global,
        tokens: &[Token],
        statement: &Statement,
        at: usize,
        zeros: u8,
    ) -> Result<(), AsmFault>
        ensures { Drafts result (draft_parts self.new) (strings_put (map token_parts tokens.now)
            (draft_parts self.old) (statement_parts statement.now) at zeros) }
    {
        if self.is_here(ChunkKind::Dropped) {
            return Ok(());
        }
        self.unless_code(tokens, at)?;
        self.put_each_string(alloc, tokens, at, zeros, statement.operands.as_slice())?;
        end(statement.fault)
    }
}
