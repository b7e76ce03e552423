//! Instructions are read.
#![tactic(auto, unfolding(crate::proofs::Unfold::instructions))]

ghost use Rattle.std.specs.Prelude.{◌≡◌, ◌≤◌, ◌<◌, IfOk, length};
ghost use Rattle.asm_statements.specs.Drafts.{Answers, parts_of};
ghost use Rattle.asm_statements.specs.Marks.{source};
ghost use Rattle.asm_statements.specs.Instructions.{
  finished,
  instruction,
  known,
  named,
  next_wanted,
  operands,
  unknown,
};

use crate::draft::Draft;
use crate::forms::{Form, Wanted, forms_of};
use crate::operations::operation_of;
use crate::reader::Reader;
use crate::statement::Body;
use asm_mnemonics::{Mnemonic, mnemonic_of, push_small};
use asm_names::is_outside;
use asm_tokens::AsmFault;

impl Reader<'_> {
    /// An operand after a comma.
    fn next_wanted(&self, draft: &mut Draft, wanted: Wanted, at: usize) -> Result<usize, AsmFault>
        ensures is { Answers result (parts_of draft.new)
            (next_wanted (source self.now) wanted at (parts_of draft.old)) }
        ensures room { IfOk result (λ next. next ≤ length self.now.tokens.now) }
    {
        let next = self.comma(at)?;
        self.wanted_operand(draft, wanted, next)
    }

    /// The operands of a form.
    fn operands(&self, draft: &mut Draft, form: Form, at: usize) -> Result<usize, AsmFault>
        requires { at ≤ length self.now.tokens.now }
        ensures is { Answers result (parts_of draft.new)
            (operands (source self.now) form at (parts_of draft.old)) }
        ensures room { IfOk result (λ next. next ≤ length self.now.tokens.now) }
    {
        match form {
            Form::None => Ok(at),
            Form::One(first) => self.wanted_operand(draft, first, at),
            Form::Two(first, second) => {
                let next = self.wanted_operand(draft, first, at)?;
                self.next_wanted(draft, second, next)
            }
            Form::Three(first, second, third) => {
                let next = self.wanted_operand(draft, first, at)?;
                let after = self.next_wanted(draft, second, next)?;
                self.next_wanted(draft, third, after)
            }
        }
    }

    /// An instruction of this name, whose name's token has this number.
    fn known(&self, draft: &mut Draft, mnemonic: Mnemonic, at: usize) -> Result<(), AsmFault>
        requires { at < length self.now.tokens.now }
        ensures { Answers result (parts_of draft.new)
            (known (source self.now) mnemonic at (parts_of draft.old)) }
    {
        draft.set_body(Body::Instruction(at, None));
        let form = self.meant_form(forms_of(mnemonic), at + 1);
        let next = self.operands(draft, form, at + 1)?;
        self.end(next)?;
        let operation = operation_of(mnemonic, draft.registers);
        draft.set_body(Body::Instruction(at, Some(operation)));
        Ok(())
    }

    /// An instruction, by its name in small letters.
    fn named(&self, draft: &mut Draft, name: &[u8], at: usize) -> Result<(), AsmFault>
        requires { at < length self.now.tokens.now }
        ensures { Answers result (parts_of draft.new)
            (named (source self.now) name.now at (parts_of draft.old)) }
    {
        if let Some(mnemonic) = mnemonic_of(name) {
            return self.known(draft, mnemonic, at);
        }
        if is_outside(name) {
            draft.set_body(Body::OutsideInstruction(at));
        } else {
            draft.set_body(Body::UnknownInstruction(at));
        }
        Ok(())
    }

    /// An instruction, whose name's token has this number.
    pub(crate) fn instruction(&self, draft: &mut Draft, at: usize) -> Result<(), AsmFault>
        requires { at < length self.now.tokens.now }
        ensures { Answers result (parts_of draft.new)
            (instruction (source self.now) at (parts_of draft.old)) }
    {
        let mut name = Vec::new(self.alloc);
        push_small(&mut name, self.text(at))?;
        self.named(draft, &name, at)
    }
}
