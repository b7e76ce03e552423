//! Instructions of a name and operands as numbers.

use crate::numbers::register;
use cheri_model::form::Form;
use cheri_model::names::Mnemonic;
use cheri_model::{Instr, Target};

/// The operands of a case: three registers, and a number that is an immediate, a length, an amount
/// or the number of the instruction that a jump goes to.
#[derive(Clone, Copy)]
pub struct Operands {
    pub cd: u64,
    pub c1: u64,
    pub c2: u64,
    pub number: u64,
}

/// A number's lowest twelve bits, with their sign.
fn signed_12_bits(number: u64) -> i16 {
    let low = (number % 0x1000) as i16;
    if low >= 0x800 { low - 0x1000 } else { low }
}

/// The instruction of this name with these operands, as many of their lowest bits as it has.
pub fn instr_of(mnemonic: Mnemonic, operands: Operands) -> Instr {
    let (cd, c1) = (register(operands.cd), register(operands.c1));
    let c2 = register(operands.c2);
    let imm = signed_12_bits(operands.number);
    let target = Target::new((operands.number % 0x1_0000_0000) as u32);
    let form = match mnemonic {
        Mnemonic::Three(op) => Form::Three(op, cd, c1, c2),
        Mnemonic::Two(op) => Form::Two(op, cd, c1),
        Mnemonic::Immediate(op) => Form::Immediate(op, cd, c1, imm),
        Mnemonic::Shift(op) => Form::Shift(op, cd, c1, (operands.number % 64) as u8),
        Mnemonic::WordShift(op) => Form::WordShift(op, cd, c1, (operands.number % 32) as u8),
        Mnemonic::SetBoundsImm => Form::SetBoundsImm(cd, c1, (operands.number % 0x1000) as u16),
        Mnemonic::Upper(op) => Form::Upper(op, cd, (operands.number % 0x10_0000) as u32),
        Mnemonic::Load(op) => Form::Load(op, cd, c1, imm),
        Mnemonic::Store(op) => Form::Store(op, c2, c1, imm),
        Mnemonic::Swap => Form::Swap(cd, c2, c1),
        Mnemonic::Branch(op) => Form::Branch(op, c1, c2, target),
        Mnemonic::Jump => Form::Jump(cd, target),
        Mnemonic::Invoke => Form::Invoke(c1, c2),
        Mnemonic::Alone => Form::Alone,
    };
    form.instr()
}
