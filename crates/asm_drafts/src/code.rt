//! Instructions.
#![tactic(auto, unfolding(crate::proofs::Unfold::code))]

ghost use Rattle.std.specs.Prelude.{◌≡◌, map};
ghost use Rattle.asm_tokens.specs.Faults.{Gives};
ghost use Rattle.asm_tokens.specs.Tokens.{token_parts};
ghost use Rattle.asm_statements.specs.Statements.{statement_parts};
ghost use Rattle.asm_drafts.specs.Drafts.{Drafts, draft_parts};
ghost use Rattle.asm_drafts.specs.Code.{constant_of, count_of, instruction_put, zero_judged};

use crate::draft::{Draft, end};
use crate::operands::{Limits, first_of};
use asm_chunks::ChunkKind;
use asm_expansions::Operation;
use asm_expressions::fault_at;
use asm_statements::{Role, Statement};
use asm_tokens::{AsmFault, AsmFaultKind, Token};
use std::alloc::Global;

/// How many instructions an operation stands for, with its constant; none where there is none.
fn count_of(operation: Option<Operation>, constant: u64) -> usize
    ensures { result ≡ count_of operation constant }
{
    match operation {
        Some(operation) => operation.count(constant.cast_signed()),
        None => 0,
    }
}

impl Draft<'_> {
    /// Refuses an offset that isn't 0. An operator of relocation has no value yet.
    fn judge_zero(
        &self,
        alloc: Global,
        tokens: &[Token],
        statement: &Statement,
        relocated: bool,
    ) -> Result<(), AsmFault>
        ensures { Gives (λ done. done) result (zero_judged (map token_parts tokens.now)
            (draft_parts self.now) (statement_parts statement.now) relocated) }
    {
        if relocated {
            return Err(fault_at(tokens, AsmFaultKind::Expression, first_of(statement, 0)));
        }
        let limits = Limits { below: 0, most: 0 };
        self.early_number(alloc, tokens, statement, 0, limits)?;
        Ok(())
    }

    /// The constant of an instruction, of which the count of instructions depends; 0 where it has
    /// none.
    fn constant_of(
        &self,
        alloc: Global,
        tokens: &[Token],
        statement: &Statement,
    ) -> Result<u64, AsmFault>
        ensures { Gives (λ constant. constant) result (constant_of (map token_parts tokens.now)
            (draft_parts self.now) (statement_parts statement.now)) }
    {
        let Some(operand) = statement.operands.get(0) else {
            return Ok(0);
        };
        match operand.role {
            Role::Early => {
                let limits = Limits {
                    below: 0,
                    most: u64::MAX,
                };
                self.early_number(alloc, tokens, statement, 0, limits)
            }
            Role::Zero => {
                self.judge_zero(alloc, tokens, statement, operand.relocation.is_some())?;
                Ok(0)
            }
            _ => Ok(0),
        }
    }

    /// An instruction, whose name is a token. Fails with `Section` where the chunk isn't code.
    pub(crate) fn put_instruction(
        &mut self,
        alloc: Global,
        tokens: &[Token],
        statement: &Statement,
        at: usize,
        operation: Option<Operation>,
    ) -> Result<(), AsmFault>
        ensures { Drafts result (draft_parts self.new) (instruction_put (map token_parts tokens.now)
            (draft_parts self.old) (statement_parts statement.now) at operation) }
    {
        if self.is_here(ChunkKind::Dropped) {
            return Ok(());
        }
        if !self.is_here(ChunkKind::Code) {
            return Err(fault_at(tokens, AsmFaultKind::Section, at));
        }
        let constant = self.constant_of(alloc, tokens, statement)?;
        end(statement.fault)?;
        self.grow_code(tokens, at, count_of(operation, constant))
    }
}
