//! The canonical text of an instruction.

ghost use Rattle.std.specs.Prelude.{◌≡◌, Some};
ghost use Rattle.notation.specs.Instructions.{form_text};

use cheri_model::form::Form;
use cheri_model::names::{Mnemonic, name_of};
use std::fmt;

/// An instruction by its form: its name, and its operands with commas between them.
#[derive(Clone, Copy)]
pub struct InstructionText(pub Form);

#[tactic(auto, unfolding(crate::specs::Instructions::form_text))]
impl fmt::Display for InstructionText {
    ghost output = { λ text. Some (form_text text.0) };

    fn fmt<W: fmt::Write>(&self, f: &mut fmt::Formatter<W>) -> fmt::Result {
        match self.0 {
            Form::Three(op, cd, c1, c2) => write!(
                f,
                "{} c{}, c{}, c{}",
                name_of(Mnemonic::Three(op)),
                cd.number(),
                c1.number(),
                c2.number()
            ),
            Form::Two(op, cd, c1) => {
                write!(
                    f,
                    "{} c{}, c{}",
                    name_of(Mnemonic::Two(op)),
                    cd.number(),
                    c1.number()
                )
            }
            Form::Immediate(op, cd, c1, imm) => write!(
                f,
                "{} c{}, c{}, {imm}",
                name_of(Mnemonic::Immediate(op)),
                cd.number(),
                c1.number()
            ),
            Form::Shift(op, cd, c1, amount) => write!(
                f,
                "{} c{}, c{}, {amount}",
                name_of(Mnemonic::Shift(op)),
                cd.number(),
                c1.number()
            ),
            Form::WordShift(op, cd, c1, amount) => write!(
                f,
                "{} c{}, c{}, {amount}",
                name_of(Mnemonic::WordShift(op)),
                cd.number(),
                c1.number()
            ),
            Form::SetBoundsImm(cd, c1, len) => {
                write!(
                    f,
                    "{} c{}, c{}, {len}",
                    name_of(Mnemonic::SetBoundsImm),
                    cd.number(),
                    c1.number()
                )
            }
            Form::Upper(op, cd, imm) => write!(
                f,
                "{} c{}, {imm}",
                name_of(Mnemonic::Upper(op)),
                cd.number()
            ),
            Form::Load(op, cd, c1, imm) => {
                write!(
                    f,
                    "{} c{}, {imm}(c{})",
                    name_of(Mnemonic::Load(op)),
                    cd.number(),
                    c1.number()
                )
            }
            Form::Store(op, c2, c1, imm) => {
                write!(
                    f,
                    "{} c{}, {imm}(c{})",
                    name_of(Mnemonic::Store(op)),
                    c2.number(),
                    c1.number()
                )
            }
            Form::Swap(cd, c2, c1) => write!(
                f,
                "{} c{}, c{}, c{}",
                name_of(Mnemonic::Swap),
                cd.number(),
                c2.number(),
                c1.number()
            ),
            Form::Branch(op, c1, c2, target) => write!(
                f,
                "{} c{}, c{}, @{}",
                name_of(Mnemonic::Branch(op)),
                c1.number(),
                c2.number(),
                target.number()
            ),
            Form::Jump(cd, target) => write!(
                f,
                "{} c{}, @{}",
                name_of(Mnemonic::Jump),
                cd.number(),
                target.number()
            ),
            Form::Invoke(c1, c2) => write!(
                f,
                "{} c{}, c{}",
                name_of(Mnemonic::Invoke),
                c1.number(),
                c2.number()
            ),
            Form::Alone => f.write_str(name_of(Mnemonic::Alone)),
        }
    }
}
