//! The number of a statement that is known while its file is read, and matters later.
#![tactic(auto, unfolding(crate::proofs::Unfold::kept))]

ghost use Rattle.std.specs.Prelude.{◌≡◌, IfOk, map};
ghost use Rattle.asm_tokens.specs.Tokens.{token_parts};
ghost use Rattle.asm_statements.specs.Statements.{statement_parts};
ghost use Rattle.asm_drafts.specs.Drafts.{draft_parts};
ghost use Rattle.asm_drafts.specs.Kept.{GivesKept, kept_number, kept_operand, known_number};

use crate::draft::Draft;
use crate::operands::{is_said, nodes_of};
use asm_statements::{Body, Role, Statement};
use asm_tokens::{AsmFault, Token};
use asm_values::Value;
use std::alloc::Global;

/// The operand of a statement whose number matters later: the constant of an instruction, or the
/// byte of padding and of bytes that are the same.
fn kept_operand(statement: &Statement) -> Option<usize>
    ensures { result ≡ kept_operand (statement_parts statement.now) }
{
    match statement.body {
        Body::Instruction(_, _) => match statement.operands.get(0)?.role {
            Role::Early => Some(0),
            _ => None,
        },
        Body::Align(_) | Body::Balign(_) | Body::Zero(_) => Some(1),
        _ => None,
    }
}

impl<'a> Draft<'a> {
    /// The number that an operand is, where it is said and known; else 0.
    fn known_number(
        &self,
        alloc: Global,
        tokens: &[Token<'a>],
        statement: &Statement,
        operand: usize,
    ) -> Result<u64, AsmFault>
        ensures { GivesKept result (known_number (map token_parts tokens.now)
            (draft_parts self.now) (statement_parts statement.now) operand) }
    {
        if !is_said(statement, operand) {
            return Ok(0);
        }
        match self.known(alloc, tokens, nodes_of(statement, operand))? {
            Some(Value::Number(number)) => Ok(number),
            _ => Ok(0),
        }
    }

    /// The number of a statement that matters later: the constant of `li`, or the byte of padding
    /// and of bytes that are the same; 0 where it has none. Fails only when out of memory.
    pub fn kept_number(
        &self,
        alloc: Global,
        tokens: &[Token<'a>],
        statement: &Statement,
    ) -> Result<u64, AsmFault>
        ensures { GivesKept result (kept_number (map token_parts tokens.now)
            (draft_parts self.now) (statement_parts statement.now)) }
    {
        match kept_operand(statement) {
            Some(operand) => self.known_number(alloc, tokens, statement, operand),
            None => Ok(0),
        }
    }
}
