//! Padding.
#![tactic(auto, using(crate::proofs::Rulesets::powers), unfolding(crate::proofs::Unfold::padding))]

ghost use Rattle.std.specs.Prelude.{◌≡◌, map};
ghost use Rattle.asm_tokens.specs.Faults.{Gives};
ghost use Rattle.asm_tokens.specs.Tokens.{token_parts};
ghost use Rattle.asm_statements.specs.Statements.{statement_parts};
ghost use Rattle.asm_drafts.specs.Drafts.{Drafts, draft_parts};
ghost use Rattle.asm_drafts.specs.Padding.{
  align_put,
  balign_put,
  byte_unit,
  exponent_unit,
  fill_judged,
  holds_code_or_zeros,
  narrowed,
  padded_at,
  padding_put,
};

use crate::draft::{Draft, chunk_fault, end};
use crate::names::{MAX_ALIGN, power_at};
use crate::operands::{Limits, first_of};
use asm_chunks::ChunkKind;
use asm_expressions::fault_at;
use asm_statements::Statement;
use asm_tokens::{AsmFault, AsmFaultKind, Token};
use std::alloc::Global;

/// The greatest exponent of a unit.
const MAX_EXPONENT: u64 = 20;

/// A number up to `MAX_ALIGN`.
fn narrowed(most: Option<u64>) -> Option<u32>
    ensures { result ≡ narrowed most }
{
    match most {
        Some(most) => Some(most.min(u64::from(MAX_ALIGN)) as u32),
        None => None,
    }
}

impl Draft<'_> {
    /// Whether the file goes on in code or zeros, which no byte but 0 fills.
    fn holds_code_or_zeros(&self) -> bool
        ensures { result ≡ holds_code_or_zeros (draft_parts self.now) }
    {
        self.is_here(ChunkKind::Code) || self.is_here(ChunkKind::Zeros)
    }

    /// Refuses a byte that can't fill the chunk that the file goes on in, with `Section`.
    pub(crate) fn judge_fill(
        &self,
        alloc: Global,
        tokens: &[Token],
        statement: &Statement,
        operand: usize,
    ) -> Result<(), AsmFault>
        ensures { Gives (λ done. done) result (fill_judged (map token_parts tokens.now)
            (draft_parts self.now) (statement_parts statement.now) operand) }
    {
        let limits = Limits {
            below: 128,
            most: 255,
        };
        let fill = self.early_if_said(alloc, tokens, statement, operand, limits)?;
        if fill.unwrap_or(0) == 0 {
            return Ok(());
        }
        if self.holds_code_or_zeros() {
            return Err(fault_at(tokens, AsmFaultKind::Section, first_of(statement, operand)));
        }
        Ok(())
    }

    /// The unit whose exponent the first operand is; 1 where it isn't there.
    fn exponent_unit(
        &self,
        alloc: Global,
        tokens: &[Token],
        statement: &Statement,
    ) -> Result<u32, AsmFault>
        ensures { Gives (λ unit. unit) result (exponent_unit (map token_parts tokens.now)
            (draft_parts self.now) (statement_parts statement.now)) }
    {
        let limits = Limits {
            below: 0,
            most: MAX_EXPONENT,
        };
        let exponent = self.early_if_said(alloc, tokens, statement, 0, limits)?;
        let exponent = exponent.unwrap_or(0).min(MAX_EXPONENT) as u32;
        Ok(1 << exponent)
    }

    /// The unit that the first operand is, a power of 2; 1 where it is 0 or isn't there.
    fn byte_unit(
        &self,
        alloc: Global,
        tokens: &[Token],
        statement: &Statement,
    ) -> Result<u32, AsmFault>
        ensures { Gives (λ unit. unit) result (byte_unit (map token_parts tokens.now)
            (draft_parts self.now) (statement_parts statement.now)) }
    {
        let limits = Limits {
            below: 0,
            most: u64::from(MAX_ALIGN),
        };
        let unit = self.early_if_said(alloc, tokens, statement, 0, limits)?;
        power_at(tokens, first_of(statement, 0), unit.unwrap_or(0).max(1))
    }

    /// Pads to a multiple of a unit. Fails with `Size`, at a token, where it takes too much.
    fn pad(
        &mut self,
        tokens: &[Token],
        at: usize,
        unit: u32,
        most: Option<u32>,
    ) -> Result<(), AsmFault>
        ensures { Drafts result (draft_parts self.new)
            (padded_at (map token_parts tokens.now) at unit most (draft_parts self.old)) }
    {
        match self.chunks.pad(unit, most) {
            Ok(_) => Ok(()),
            Err(fault) => Err(chunk_fault(tokens, at, fault)),
        }
    }

    /// Pads as the other operands say.
    fn put_padding(
        &mut self,
        alloc: Global,
        tokens: &[Token],
        statement: &Statement,
        at: usize,
        unit: u32,
    ) -> Result<(), AsmFault>
        ensures { Drafts result (draft_parts self.new) (padding_put (map token_parts tokens.now)
            (draft_parts self.old) (statement_parts statement.now) at unit) }
    {
        self.judge_fill(alloc, tokens, statement, 1)?;
        let limits = Limits {
            below: 0,
            most: u64::from(MAX_ALIGN),
        };
        let most = self.early_if_said(alloc, tokens, statement, 2, limits)?;
        end(statement.fault)?;
        self.pad(tokens, at, unit, narrowed(most))
    }

    /// `.align`: padding to a power of 2 by its exponent.
    pub(crate) fn put_align(
        &mut self,
        alloc: Global,
        tokens: &[Token],
        statement: &Statement,
        at: usize,
    ) -> Result<(), AsmFault>
        ensures { Drafts result (draft_parts self.new) (align_put (map token_parts tokens.now)
            (draft_parts self.old) (statement_parts statement.now) at) }
    {
        if self.is_here(ChunkKind::Dropped) {
            return Ok(());
        }
        let unit = self.exponent_unit(alloc, tokens, statement)?;
        self.put_padding(alloc, tokens, statement, at, unit)
    }

    /// `.balign`: padding to a power of 2.
    pub(crate) fn put_balign(
        &mut self,
        alloc: Global,
        tokens: &[Token],
        statement: &Statement,
        at: usize,
    ) -> Result<(), AsmFault>
        ensures { Drafts result (draft_parts self.new) (balign_put (map token_parts tokens.now)
            (draft_parts self.old) (statement_parts statement.now) at) }
    {
        if self.is_here(ChunkKind::Dropped) {
            return Ok(());
        }
        let unit = self.byte_unit(alloc, tokens, statement)?;
        self.put_padding(alloc, tokens, statement, at, unit)
    }
}
