//! Directives that name symbols: values, common symbols, and names that all files see.
#![tactic(auto, unfolding(crate::proofs::Unfold::names))]

ghost use Rattle.std.specs.Prelude.{◌≡◌, map};
ghost use Rattle.asm_tokens.specs.Faults.{Gives};
ghost use Rattle.asm_tokens.specs.Tokens.{token_parts};
ghost use Rattle.asm_statements.specs.Statements.{statement_parts};
ghost use Rattle.asm_drafts.specs.Drafts.{Drafts, draft_parts, each_put};
ghost use Rattle.asm_drafts.specs.Names.{
  Knows,
  common_added,
  common_align,
  common_align_of,
  common_put,
  power_at,
  set_put,
  unless_named,
  want_put,
};

use crate::draft::{Draft, end};
use crate::operands::{Limits, first_of, nodes_of};
use asm_chunks::MAX_CHUNK;
use asm_expressions::{Node, fault_at, text_at};
use asm_statements::{Operand, Statement};
use asm_tokens::{AsmFault, AsmFaultKind, Token};
use asm_values::Value;
use std::alloc::{AllocError, Global};

/// The greatest unit to which bytes are padded, and alignment of a common symbol.
pub const MAX_ALIGN: u32 = 1 << 20;

/// The alignment of a common symbol of so many bytes, where it isn't said: the greatest power of 2
/// that is at most the bytes, and 16.
fn common_align(size: u32) -> u32
    ensures { result ≡ common_align size }
{
    if size >= 16 {
        return 16;
    }
    if size >= 8 {
        return 8;
    }
    if size >= 4 {
        return 4;
    }
    if size >= 2 { 2 } else { 1 }
}

/// A power of 2 up to `MAX_ALIGN`, of an operand at a token. Fails with `Range` where it is none.
pub(crate) fn power_at(tokens: &[Token], at: usize, number: u64) -> Result<u32, AsmFault>
    ensures { result ≡ power_at (map token_parts tokens.now) at number }
{
    if number.is_power_of_two() && number <= u64::from(MAX_ALIGN) {
        Ok(number as u32)
    } else {
        Err(fault_at(tokens, AsmFaultKind::Range, at))
    }
}

impl<'a> Draft<'a> {
    /// Refuses a name that this file has with `Twice`.
    fn unless_named(&self, tokens: &[Token<'a>], at: usize) -> Result<(), AsmFault>
        ensures { result ≡ unless_named (map token_parts tokens.now) (draft_parts self.now) at }
    {
        match self.symbols.own.find(text_at(tokens, at)) {
            Some(_) => Err(fault_at(tokens, AsmFaultKind::Twice, at)),
            None => Ok(()),
        }
    }

    /// The value of an expression, where it is known while the file is read. Fails only when out of
    /// memory.
    pub(crate) fn known(
        &self,
        alloc: Global,
        tokens: &[Token<'a>],
        nodes: &[Node],
    ) -> Result<Option<Value>, AsmFault>
        ensures { Knows result (map token_parts tokens.now) (draft_parts self.now) nodes.now }
    {
        match self.early_value(alloc, tokens, nodes) {
            Ok(value) => Ok(Some(value)),
            Err(fault) => match fault.kind {
                AsmFaultKind::NoMemory => Err(AsmFault::from(AllocError)),
                _ => Ok(None),
            },
        }
    }

    /// `.set`: the symbol that a token names has the value of the operand of the statement of this
    /// number.
    pub(crate) fn put_set(
        &mut self,
        alloc: Global,
        tokens: &[Token<'a>],
        number: usize,
        statement: &Statement,
        at: usize,
    ) -> Result<(), AsmFault>
        ensures { Drafts result (draft_parts self.new) (set_put (map token_parts tokens.now)
            (draft_parts self.old) number (statement_parts statement.now) at) }
    {
        self.unless_named(tokens, at)?;
        end(statement.fault)?;
        let early = self.known(alloc, tokens, nodes_of(statement, 0))?;
        let name = text_at(tokens, at);
        let free = self.symbols.assign(name, at, number, early)?;
        if free {
            Ok(())
        } else {
            Err(fault_at(tokens, AsmFaultKind::Twice, at))
        }
    }

    /// The alignment of a common symbol of so many bytes.
    fn common_align_of(
        &self,
        alloc: Global,
        tokens: &[Token<'a>],
        statement: &Statement,
        size: u32,
    ) -> Result<u32, AsmFault>
        ensures { Gives (λ align. align) result (common_align_of (map token_parts tokens.now)
            (draft_parts self.now) (statement_parts statement.now) size) }
    {
        let limits = Limits {
            below: 0,
            most: u64::from(MAX_ALIGN),
        };
        match self.early_if_said(alloc, tokens, statement, 1, limits)? {
            Some(align) => power_at(tokens, first_of(statement, 1), align),
            None => Ok(common_align(size)),
        }
    }

    /// `.comm`: the symbol that a token names is a chunk of zeros.
    pub(crate) fn put_common(
        &mut self,
        alloc: Global,
        tokens: &[Token<'a>],
        statement: &Statement,
        at: usize,
    ) -> Result<(), AsmFault>
        ensures { Drafts result (draft_parts self.new) (common_put (map token_parts tokens.now)
            (draft_parts self.old) (statement_parts statement.now) at) }
    {
        self.unless_named(tokens, at)?;
        let limits = Limits {
            below: 0,
            most: u64::from(MAX_CHUNK),
        };
        let size = self.early_if_said(alloc, tokens, statement, 0, limits)?;
        let size = size.unwrap_or(0).min(u64::from(MAX_CHUNK)) as u32;
        let align = self.common_align_of(alloc, tokens, statement, size)?;
        end(statement.fault)?;
        self.add_common(tokens, at, size, align)
    }

    /// The symbol that a token names is a chunk of so many zeros.
    fn add_common(
        &mut self,
        tokens: &[Token<'a>],
        at: usize,
        size: u32,
        align: u32,
    ) -> Result<(), AsmFault>
        ensures { Drafts result (draft_parts self.new) (common_added (map token_parts tokens.now)
            (draft_parts self.old) at size align) }
    {
        let chunk = match self.chunks.add_common(size, align) {
            Ok(chunk) => chunk,
            Err(_) => return Err(AsmFault::from(AllocError)),
        };
        let name = text_at(tokens, at);
        let free = self.symbols.define_common(name, at, chunk, size)?;
        if free {
            Ok(())
        } else {
            Err(fault_at(tokens, AsmFaultKind::Twice, at))
        }
    }

    /// All files see the symbol of the name that an operand is.
    fn want(&mut self, tokens: &[Token<'a>], operand: Operand) -> Result<(), AsmFault>
        ensures { Drafts result (draft_parts self.new)
            (want_put (map token_parts tokens.now) operand (draft_parts self.old)) }
    {
        self.symbols
            .wanted
            .define(text_at(tokens, operand.first), 0)?;
        Ok(())
    }

    /// All files see the symbols of the names that operands are.
    pub(crate) fn put_wanted(
        &mut self,
        tokens: &[Token<'a>],
        operands: &[Operand],
    ) -> Result<(), AsmFault>
        ensures { Drafts result (draft_parts self.new)
            (each_put (want_put (map token_parts tokens.now)) operands.now
            (draft_parts self.old)) }
    {
        for operand in operands {
            self.want(tokens, *operand)?;
        }
        Ok(())
    }
}
