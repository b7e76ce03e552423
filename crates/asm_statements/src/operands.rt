//! Operands are read.
#![tactic(auto, unfolding(crate::proofs::Unfold::operands))]

ghost use Rattle.std.specs.Prelude.{◌≡◌, ◌≤◌, IfOk, length};
ghost use Rattle.asm_statements.specs.Drafts.{Answers, parts_of};
ghost use Rattle.asm_statements.specs.Marks.{source};
ghost use Rattle.asm_statements.specs.Fences.{fence, fence_set_at};
ghost use Rattle.asm_statements.specs.Operands.{
  alone,
  base,
  expression,
  has_base_alone,
  immediate,
  memory,
  operand,
  plain_register,
  relocated,
  wanted_operand,
};

use crate::draft::Draft;
use crate::forms::Wanted;
use crate::reader::Reader;
use crate::statement::Role;
use asm_expressions::read_expression;
use asm_names::{RegisterKind, Relocation, is_fence_set};
use asm_tokens::{AsmFault, AsmFaultKind};

impl Reader<'_> {
    /// An expression, whose nodes are added. The result of this reader and those below is the
    /// number of the first token after what was read.
    pub(crate) fn expression(&self, draft: &mut Draft, at: usize) -> Result<usize, AsmFault>
        ensures is { Answers result (parts_of draft.new)
            (expression (source self.now) at (parts_of draft.old)) }
        ensures room { IfOk result (λ next. next ≤ length self.now.tokens.now) }
    {
        read_expression(self.alloc, &mut draft.nodes, self.tokens, at)
    }

    /// An operand that is an expression.
    pub(crate) fn operand(
        &self,
        draft: &mut Draft,
        role: Role,
        at: usize,
    ) -> Result<usize, AsmFault>
        ensures is { Answers result (parts_of draft.new)
            (operand (source self.now) role at (parts_of draft.old)) }
        ensures room { IfOk result (λ next. next ≤ length self.now.tokens.now) }
    {
        let next = self.expression(draft, at)?;
        draft.add_operand(role, None, at)?;
        Ok(next)
    }

    /// An expression under an operator of relocation, whose `%` is the token before.
    fn relocated(
        &self,
        draft: &mut Draft,
        at: usize,
    ) -> Result<(Option<Relocation>, usize), AsmFault>
        ensures is { Answers result (parts_of draft.new)
            (relocated (source self.now) at (parts_of draft.old)) }
        ensures room { IfOk result (λ read. read.1 ≤ length self.now.tokens.now) }
    {
        let relocation = self.relocation(at)?;
        let inner = self.open(at + 1)?;
        let end = self.expression(draft, inner)?;
        let next = self.close(end)?;
        Ok((Some(relocation), next))
    }

    /// An immediate: an expression, alone or under an operator of relocation.
    fn immediate(
        &self,
        draft: &mut Draft,
        at: usize,
    ) -> Result<(Option<Relocation>, usize), AsmFault>
        ensures is { Answers result (parts_of draft.new)
            (immediate (source self.now) at (parts_of draft.old)) }
        ensures room { IfOk result (λ read. read.1 ≤ length self.now.tokens.now) }
    {
        if self.is_percent(at) {
            return self.relocated(draft, at + 1);
        }
        let next = self.expression(draft, at)?;
        Ok((None, next))
    }

    /// An operand that is an immediate.
    fn alone(&self, draft: &mut Draft, at: usize) -> Result<usize, AsmFault>
        ensures is { Answers result (parts_of draft.new)
            (alone (source self.now) at (parts_of draft.old)) }
        ensures room { IfOk result (λ next. next ≤ length self.now.tokens.now) }
    {
        let (relocation, next) = self.immediate(draft, at)?;
        draft.add_operand(Role::Immediate, relocation, at)?;
        Ok(next)
    }

    /// A register of this kind.
    fn plain_register(
        &self,
        draft: &mut Draft,
        kind: RegisterKind,
        at: usize,
    ) -> Result<usize, AsmFault>
        ensures is { Answers result (parts_of draft.new)
            (plain_register (source self.now) kind at (parts_of draft.old)) }
        ensures room { IfOk result (λ next. next ≤ length self.now.tokens.now) }
    {
        let register = self.register(kind, at)?;
        draft.add_register(register);
        Ok(at + 1)
    }

    /// A capability's register in brackets.
    fn base(&self, draft: &mut Draft, at: usize) -> Result<usize, AsmFault>
        ensures is { Answers result (parts_of draft.new)
            (base (source self.now) at (parts_of draft.old)) }
        ensures room { IfOk result (λ next. next ≤ length self.now.tokens.now) }
    {
        let inner = self.open(at)?;
        let end = self.plain_register(draft, RegisterKind::Capability, inner)?;
        let next = self.close(end)?;
        Ok(next)
    }

    /// Whether a register's name is right behind a bracket here.
    fn has_base_alone(&self, at: usize) -> bool
        ensures { result ≡ has_base_alone (source self.now) at }
    {
        self.is_open(at) && self.is_register(at + 1)
    }

    /// A memory operand, with an offset of this role or without one.
    fn memory(&self, draft: &mut Draft, role: Role, at: usize) -> Result<usize, AsmFault>
        ensures is { Answers result (parts_of draft.new)
            (memory (source self.now) role at (parts_of draft.old)) }
        ensures room { IfOk result (λ next. next ≤ length self.now.tokens.now) }
    {
        if self.has_base_alone(at) {
            return self.base(draft, at);
        }
        let (relocation, end) = self.immediate(draft, at)?;
        let next = self.base(draft, end)?;
        draft.add_operand(role, relocation, at)?;
        Ok(next)
    }

    /// A set of accesses.
    fn fence_set(&self, at: usize) -> Result<usize, AsmFault>
        ensures is { result ≡ fence_set_at (source self.now) at }
        ensures room { IfOk result (λ next. next ≤ length self.now.tokens.now) }
    {
        if self.is_name(at) && is_fence_set(self.text(at)) {
            Ok(at + 1)
        } else {
            Err(self.fault(AsmFaultKind::Operand, at))
        }
    }

    /// Nothing, or two sets of accesses.
    fn fence(&self, at: usize) -> Result<usize, AsmFault>
        requires { at ≤ length self.now.tokens.now }
        ensures is { result ≡ fence (source self.now) at }
        ensures room { IfOk result (λ next. next ≤ length self.now.tokens.now) }
    {
        if self.is_end(at) {
            return Ok(at);
        }
        let comma = self.fence_set(at)?;
        let second = self.comma(comma)?;
        self.fence_set(second)
    }

    /// An operand of an instruction.
    pub(crate) fn wanted_operand(
        &self,
        draft: &mut Draft,
        wanted: Wanted,
        at: usize,
    ) -> Result<usize, AsmFault>
        requires { at ≤ length self.now.tokens.now }
        ensures is { Answers result (parts_of draft.new)
            (wanted_operand (source self.now) wanted at (parts_of draft.old)) }
        ensures room { IfOk result (λ next. next ≤ length self.now.tokens.now) }
    {
        match wanted {
            Wanted::Integer => self.plain_register(draft, RegisterKind::Integer, at),
            Wanted::Capability => self.plain_register(draft, RegisterKind::Capability, at),
            Wanted::Immediate => self.alone(draft, at),
            Wanted::Memory => self.memory(draft, Role::Immediate, at),
            Wanted::Pointer => self.memory(draft, Role::Zero, at),
            Wanted::Target => self.operand(draft, Role::Target, at),
            Wanted::Symbol => self.operand(draft, Role::Symbol, at),
            Wanted::Constant => self.operand(draft, Role::Early, at),
            Wanted::Fence => self.fence(at),
        }
    }
}
