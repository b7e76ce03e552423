//! The canonical text of an instruction, piece by piece: an explanation has one an event, and a
//! formatter takes three times the time.
#![tactic(auto, unfolding(crate::proofs::Unfold::forms))]

ghost use Rattle.std.specs.Prelude.{◌≡◌, ◌++◌, OnOk, codes, decimal, string_bytes};
ghost use Rattle.std.specs.Fmt.{signed_decimal};
ghost use Rattle.notation.specs.Instructions.{form_text};

use crate::mnemonics::{
    branch_name, immediate_name, load_name, shift_name, store_name, three_name, two_name,
    upper_name, word_shift_name,
};
use crate::pieces::{Lead, write_operand};
use cheri_model::form::Form;
use cheri_model::{NoMemory, Reg, Target};
use itoa::{Buffer, Integer};

/// Appends an instruction's name and its first register.
fn write_first(out: &mut String, name: &str, first: Reg) -> Result<(), NoMemory>
    ensures { OnOk result (string_bytes out.new
        ≡ string_bytes out.old ++ (name.now ++ (codes " c" ++ decimal first))) }
{
    out.push_str(name)?;
    write_operand(out, Lead::Space, first)
}

/// Appends an instruction's name and its first two registers.
fn write_two(out: &mut String, name: &str, first: Reg, second: Reg) -> Result<(), NoMemory>
    ensures { OnOk result (string_bytes out.new ≡ string_bytes out.old
        ++ (name.now ++ (codes " c" ++ (decimal first ++ (codes ", c" ++ decimal second))))) }
{
    write_first(out, name, first)?;
    write_operand(out, Lead::Comma, second)
}

/// Appends an instruction on three registers.
fn write_three(
    out: &mut String,
    name: &str,
    first: Reg,
    second: Reg,
    third: Reg,
) -> Result<(), NoMemory>
    ensures { OnOk result (string_bytes out.new ≡ string_bytes out.old
        ++ (name.now ++ (codes " c" ++ (decimal first ++ (codes ", c" ++ (decimal second
        ++ (codes ", c" ++ decimal third))))))) }
{
    write_two(out, name, first, second)?;
    write_operand(out, Lead::Comma, third)
}

/// Appends an instruction on two registers and a number.
fn write_two_and<I: Integer>(
    out: &mut String,
    name: &str,
    first: Reg,
    second: Reg,
    number: I,
) -> Result<(), NoMemory>
    ensures { OnOk result (string_bytes out.new ≡ string_bytes out.old
        ++ (name.now ++ (codes " c" ++ (decimal first ++ (codes ", c" ++ (decimal second
        ++ (codes ", " ++ I.text number))))))) }
{
    write_two(out, name, first, second)?;
    out.push_str(", ")?;
    out.push_str(Buffer::new().format(number))
}

/// Appends an instruction on a register, and an address by a register and an offset.
fn write_access(
    out: &mut String,
    name: &str,
    first: Reg,
    second: Reg,
    offset: i16,
) -> Result<(), NoMemory>
    ensures { OnOk result (string_bytes out.new ≡ string_bytes out.old
        ++ (name.now ++ (codes " c" ++ (decimal first ++ (codes ", " ++ (signed_decimal offset
        ++ (codes "(c" ++ (decimal second ++ codes ")")))))))) }
{
    write_first(out, name, first)?;
    out.push_str(", ")?;
    out.push_str(Buffer::new().format(offset))?;
    write_operand(out, Lead::Bracket, second)?;
    out.push_str(")")
}

/// Appends an instruction on two registers with a target.
fn write_branch(
    out: &mut String,
    name: &str,
    first: Reg,
    second: Reg,
    target: Target,
) -> Result<(), NoMemory>
    ensures { OnOk result (string_bytes out.new ≡ string_bytes out.old
        ++ (name.now ++ (codes " c" ++ (decimal first ++ (codes ", c" ++ (decimal second
        ++ (codes ", @" ++ decimal target))))))) }
{
    write_two(out, name, first, second)?;
    out.push_str(", @")?;
    out.push_str(Buffer::new().format(target.number()))
}

/// Appends an instruction on a register and an unsigned number, after this text.
fn write_first_and(
    out: &mut String,
    name: &str,
    first: Reg,
    before: &str,
    number: u32,
) -> Result<(), NoMemory>
    ensures { OnOk result (string_bytes out.new ≡ string_bytes out.old
        ++ (name.now ++ (codes " c" ++ (decimal first ++ (before.now ++ decimal number))))) }
{
    write_first(out, name, first)?;
    out.push_str(before)?;
    out.push_str(Buffer::new().format(number))
}

/// Appends an instruction by its form: its name, and its operands with commas between them.
pub(crate) fn write_form(out: &mut String, form: Form) -> Result<(), NoMemory>
    ensures { OnOk result (string_bytes out.new ≡ string_bytes out.old ++ form_text form) }
{
    match form {
        Form::Three(op, cd, c1, c2) => write_three(out, three_name(op), cd, c1, c2),
        Form::Two(op, cd, c1) => write_two(out, two_name(op), cd, c1),
        Form::Immediate(op, cd, c1, imm) => write_two_and(out, immediate_name(op), cd, c1, imm),
        Form::Shift(op, cd, c1, amount) => write_two_and(out, shift_name(op), cd, c1, amount),
        Form::WordShift(op, cd, c1, amount) => {
            write_two_and(out, word_shift_name(op), cd, c1, amount)
        }
        Form::SetBoundsImm(cd, c1, len) => write_two_and(out, "csetboundsimm", cd, c1, len),
        Form::Upper(op, cd, imm) => write_first_and(out, upper_name(op), cd, ", ", imm),
        Form::Load(op, cd, c1, imm) => write_access(out, load_name(op), cd, c1, imm),
        Form::Store(op, c2, c1, imm) => write_access(out, store_name(op), c2, c1, imm),
        Form::Swap(cd, c2, c1) => write_three(out, "amoswap.c", cd, c2, c1),
        Form::Branch(op, c1, c2, target) => write_branch(out, branch_name(op), c1, c2, target),
        Form::Jump(cd, target) => write_first_and(out, "cjal", cd, ", @", target.number()),
        Form::Invoke(c1, c2) => write_two(out, "cinvoke", c1, c2),
        Form::Alone => out.push_str("ecall"),
    }
}
