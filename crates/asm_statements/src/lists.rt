//! Operands with commas between them.
#![tactic(auto, unfolding(crate::proofs::Unfold::lists))]

ghost use Rattle.std.specs.Prelude.{◌≡◌, ◌≤◌, IfOk, length};
ghost use Rattle.asm_statements.specs.Drafts.{Answers, parts_of};
ghost use Rattle.asm_statements.specs.Marks.{source};
ghost use Rattle.asm_statements.specs.Lists.{
  after_number,
  fill,
  item,
  listed,
  listed_more,
  name_item,
  next_item,
  one_more,
  padding,
  string_item,
};

use crate::draft::Draft;
use crate::reader::Reader;
use crate::statement::Role;
use asm_tokens::AsmFault;

impl Reader<'_> {
    /// A name as an operand.
    fn name_item(&self, draft: &mut Draft, at: usize) -> Result<usize, AsmFault>
        ensures is { Answers result (parts_of draft.new)
            (name_item (source self.now) at (parts_of draft.old)) }
        ensures room { IfOk result (λ next. next ≤ length self.now.tokens.now) }
    {
        let next = self.name(at)?;
        draft.add_operand(Role::Name, None, at)?;
        Ok(next)
    }

    /// A string as an operand.
    fn string_item(&self, draft: &mut Draft, at: usize) -> Result<usize, AsmFault>
        ensures is { Answers result (parts_of draft.new)
            (string_item (source self.now) at (parts_of draft.old)) }
        ensures room { IfOk result (λ next. next ≤ length self.now.tokens.now) }
    {
        let next = self.string(at)?;
        draft.add_operand(Role::String, None, at)?;
        Ok(next)
    }

    /// An operand of this role: a name, a string or an expression.
    fn item(&self, draft: &mut Draft, role: Role, at: usize) -> Result<usize, AsmFault>
        ensures is { Answers result (parts_of draft.new)
            (item (source self.now) role at (parts_of draft.old)) }
        ensures room { IfOk result (λ next. next ≤ length self.now.tokens.now) }
    {
        match role {
            Role::Name => self.name_item(draft, at),
            Role::String => self.string_item(draft, at),
            _ => self.operand(draft, role, at),
        }
    }

    /// A comma and an operand of this role after it.
    fn next_item(&self, draft: &mut Draft, role: Role, at: usize) -> Result<usize, AsmFault>
        ensures is { Answers result (parts_of draft.new)
            (next_item (source self.now) role at (parts_of draft.old)) }
        ensures room { IfOk result (λ next. next ≤ length self.now.tokens.now) }
    {
        let next = self.comma(at)?;
        self.item(draft, role, next)
    }

    /// Operands of this role, as many as there are, and then the statement's end.
    pub(crate) fn listed(&self, draft: &mut Draft, role: Role, at: usize) -> Result<(), AsmFault>
        ensures { Answers result (parts_of draft.new)
            (listed (source self.now) role at (parts_of draft.old)) }
    {
        let mut next = self.item(draft, role, at)?;
        // There are no more operands than tokens.
        for _ in 0..self.tokens.len() {
            if !self.is_comma(next) {
                return self.end(next);
            }
            match self.next_item(draft, role, next) {
                Ok(after) => next = after,
                Err(fault) => return Err(fault),
            }
        }
        self.end(next)
    }

    /// One operand more that is an early number, if there is a comma, and then the statement's end.
    pub(crate) fn one_more(&self, draft: &mut Draft, at: usize) -> Result<(), AsmFault>
        ensures { Answers result (parts_of draft.new)
            (one_more (source self.now) at (parts_of draft.old)) }
    {
        if !self.is_comma(at) {
            return self.end(at);
        }
        let next = self.next_item(draft, Role::Early, at)?;
        self.end(next)
    }

    /// The byte of a padding, which may be left out before a comma or the statement's end.
    fn fill(&self, draft: &mut Draft, at: usize) -> Result<usize, AsmFault>
        requires { at ≤ length self.now.tokens.now }
        ensures is { Answers result (parts_of draft.new)
            (fill (source self.now) at (parts_of draft.old)) }
        ensures room { IfOk result (λ next. next ≤ length self.now.tokens.now) }
    {
        if self.is_comma(at) || self.is_end(at) {
            draft.add_operand(Role::Absent, None, at)?;
            return Ok(at);
        }
        self.operand(draft, Role::Early, at)
    }

    /// What follows the number of a padding: after commas a byte and the most bytes, if they are
    /// said, and then the statement's end.
    fn after_number(&self, draft: &mut Draft, at: usize) -> Result<(), AsmFault>
        ensures { Answers result (parts_of draft.new)
            (after_number (source self.now) at (parts_of draft.old)) }
    {
        if !self.is_comma(at) {
            return self.end(at);
        }
        let after = self.fill(draft, at + 1)?;
        self.one_more(draft, after)
    }

    /// What a padding takes: a number, and what may follow it.
    pub(crate) fn padding(&self, draft: &mut Draft, at: usize) -> Result<(), AsmFault>
        ensures { Answers result (parts_of draft.new)
            (padding (source self.now) at (parts_of draft.old)) }
    {
        let next = self.operand(draft, Role::Early, at)?;
        self.after_number(draft, next)
    }
}
