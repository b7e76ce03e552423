//! The operands of statements.
#![tactic(auto, unfolding(crate::proofs::Unfold::operands))]

ghost use Rattle.std.specs.Prelude.{◌≡◌, ◌+◌, ◌<◌, ◌^◌, map};
ghost use Rattle.asm_tokens.specs.Faults.{Gives};
ghost use Rattle.asm_tokens.specs.Tokens.{token_parts};
ghost use Rattle.asm_statements.specs.Statements.{statement_parts};
ghost use Rattle.asm_drafts.specs.Drafts.{draft_parts};
ghost use Rattle.asm_drafts.specs.Operands.{
  early_number,
  early_if_said,
  first_of,
  is_said,
  nodes_of,
  number_in,
  operand_end,
};

use crate::draft::Draft;
use asm_expressions::{Node, fault_at};
use asm_statements::{Role, Statement};
use asm_tokens::{AsmFault, AsmFaultKind, Token};
use asm_values::Value;
use std::alloc::Global;

/// The range of a number of 64 bits, in two's complement: from so many below 0 up to a limit.
#[derive(Clone, Copy, Debug)]
pub(crate) struct Limits {
    pub below: u64,
    pub most: u64,
}

/// How many nodes a statement has up to an operand's last one.
fn operand_end(statement: &Statement, operand: usize) -> usize
    ensures { result ≡ operand_end (statement_parts statement.now) operand }
{
    match statement.operands.get(operand) {
        Some(operand) => operand.end,
        None => 0,
    }
}

/// The nodes of an operand.
pub fn nodes_of(statement: &Statement, operand: usize) -> &[Node]
    ensures { result.now ≡ nodes_of (statement_parts statement.now) operand }
{
    let start = match operand.checked_sub(1) {
        Some(before) => operand_end(statement, before),
        None => 0,
    };
    let end = operand_end(statement, operand);
    if start <= end && end <= statement.nodes.len() {
        &statement.nodes[start..end]
    } else {
        &[]
    }
}

/// The number of an operand's first token.
pub fn first_of(statement: &Statement, operand: usize) -> usize
    ensures { result ≡ first_of (statement_parts statement.now) operand }
{
    match statement.operands.get(operand) {
        Some(operand) => operand.first,
        None => 0,
    }
}

/// Whether an operand is said, and not left out.
pub fn is_said(statement: &Statement, operand: usize) -> bool
    ensures { result ≡ is_said (statement_parts statement.now) operand }
{
    match statement.operands.get(operand) {
        Some(operand) => match operand.role {
            Role::Absent => false,
            _ => true,
        },
        None => false,
    }
}

/// A value that is a number within limits. Fails at a token with `Expression` where it is a place,
/// and with `Range`.
fn number_in(tokens: &[Token], at: usize, limits: Limits, value: Value) -> Result<u64, AsmFault>
    requires { limits.below + limits.most < 2 ^ 64 }
    ensures { result ≡ number_in (map token_parts tokens.now) at limits value }
{
    let Value::Number(number) = value else {
        return Err(fault_at(tokens, AsmFaultKind::Expression, at));
    };
    if number.wrapping_add(limits.below) <= limits.below + limits.most {
        Ok(number)
    } else {
        Err(fault_at(tokens, AsmFaultKind::Range, at))
    }
}

impl Draft<'_> {
    /// The number that an operand is while the file is read, within limits.
    pub(crate) fn early_number(
        &self,
        alloc: Global,
        tokens: &[Token],
        statement: &Statement,
        operand: usize,
        limits: Limits,
    ) -> Result<u64, AsmFault>
        requires { limits.below + limits.most < 2 ^ 64 }
        ensures { Gives (λ number. number) result (early_number (map token_parts tokens.now)
            (draft_parts self.now) (statement_parts statement.now) operand limits) }
    {
        let value = self.early_value(alloc, tokens, nodes_of(statement, operand))?;
        number_in(tokens, first_of(statement, operand), limits, value)
    }

    /// The same of an operand that may be left out.
    pub(crate) fn early_if_said(
        &self,
        alloc: Global,
        tokens: &[Token],
        statement: &Statement,
        operand: usize,
        limits: Limits,
    ) -> Result<Option<u64>, AsmFault>
        requires { limits.below + limits.most < 2 ^ 64 }
        ensures { Gives (λ number. number) result (early_if_said (map token_parts tokens.now)
            (draft_parts self.now) (statement_parts statement.now) operand limits) }
    {
        if !is_said(statement, operand) {
            return Ok(None);
        }
        let number = self.early_number(alloc, tokens, statement, operand, limits)?;
        Ok(Some(number))
    }
}
