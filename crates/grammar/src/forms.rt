//! The operands of instructions, by their form.
#![tactic(auto, using(crate::proofs::Rulesets::count), unfolding(crate::proofs::Unfold::forms))]

ghost use Rattle.std.specs.Prelude.{◌≡◌};
ghost use Rattle.grammar.specs.Tokens.{texts};
ghost use Rattle.grammar.specs.LabelMap.{label_parts};
ghost use Rattle.grammar.specs.Forms.{
  counted,
  three_form,
  two_form,
  immediate_form,
  shift_form,
  word_shift_form,
  set_bounds_form,
  upper_form,
  load_form,
  store_form,
  swap_form,
  branch_form,
  jump_form,
  invoke_form,
  alone_form,
  form_from,
};

use crate::fault::ListingFaultKind;
use crate::labels::{Labels, target_of, target_operand_of};
use crate::operands::{
    immediate_of, immediate_of_12_bits, immediate_up_to, memory_operand_of, register_of,
};
use crate::tokens::token_at;
use cheri_model::form::{
    BranchOp, Form, ImmediateOp, LoadOp, ShiftOp, StoreOp, ThreeOp, TwoOp, UpperOp, WordShiftOp,
};
use cheri_model::names::Mnemonic;
use cheri_model::{MAX_IMMEDIATE_LENGTH, MAX_SHIFT, MAX_UPPER_IMMEDIATE, MAX_WORD_SHIFT};

/// Refuses a line of more or fewer tokens with `Operand`.
pub fn counted(count: usize, tokens: &[&[u8]]) -> Result<(), ListingFaultKind>
    ensures { result ≡ counted count (texts tokens.now) }
{
    if tokens.len() == count {
        Ok(())
    } else {
        Err(ListingFaultKind::Operand)
    }
}

/// `cd, c1, c2`
fn three_form(op: ThreeOp, tokens: &[&[u8]]) -> Result<Form, ListingFaultKind>
    ensures { result ≡ three_form op (texts tokens.now) }
{
    counted(4, tokens)?;
    let cd = register_of(token_at(tokens, 1))?;
    let c1 = register_of(token_at(tokens, 2))?;
    let c2 = register_of(token_at(tokens, 3))?;
    Ok(Form::Three(op, cd, c1, c2))
}

/// `cd, c1`
fn two_form(op: TwoOp, tokens: &[&[u8]]) -> Result<Form, ListingFaultKind>
    ensures { result ≡ two_form op (texts tokens.now) }
{
    counted(3, tokens)?;
    let cd = register_of(token_at(tokens, 1))?;
    let c1 = register_of(token_at(tokens, 2))?;
    Ok(Form::Two(op, cd, c1))
}

/// `cd, c1, i`, from -2,048 to 2,047
fn immediate_form(op: ImmediateOp, tokens: &[&[u8]]) -> Result<Form, ListingFaultKind>
    ensures { result ≡ immediate_form op (texts tokens.now) }
{
    counted(4, tokens)?;
    let cd = register_of(token_at(tokens, 1))?;
    let c1 = register_of(token_at(tokens, 2))?;
    let imm = immediate_of(token_at(tokens, 3))?;
    let imm = immediate_of_12_bits(imm)?;
    Ok(Form::Immediate(op, cd, c1, imm))
}

/// `cd, c1, n`, from 0 to `MAX_SHIFT`
fn shift_form(op: ShiftOp, tokens: &[&[u8]]) -> Result<Form, ListingFaultKind>
    ensures { result ≡ shift_form op (texts tokens.now) }
{
    counted(4, tokens)?;
    let cd = register_of(token_at(tokens, 1))?;
    let c1 = register_of(token_at(tokens, 2))?;
    let imm = immediate_of(token_at(tokens, 3))?;
    let amount = immediate_up_to(u128::from(MAX_SHIFT), imm)? as u8;
    Ok(Form::Shift(op, cd, c1, amount))
}

/// `cd, c1, n`, from 0 to `MAX_WORD_SHIFT`
fn word_shift_form(op: WordShiftOp, tokens: &[&[u8]]) -> Result<Form, ListingFaultKind>
    ensures { result ≡ word_shift_form op (texts tokens.now) }
{
    counted(4, tokens)?;
    let cd = register_of(token_at(tokens, 1))?;
    let c1 = register_of(token_at(tokens, 2))?;
    let imm = immediate_of(token_at(tokens, 3))?;
    let amount = immediate_up_to(u128::from(MAX_WORD_SHIFT), imm)? as u8;
    Ok(Form::WordShift(op, cd, c1, amount))
}

/// `cd, c1, i`, from 0 to `MAX_IMMEDIATE_LENGTH`
fn set_bounds_form(tokens: &[&[u8]]) -> Result<Form, ListingFaultKind>
    ensures { result ≡ set_bounds_form (texts tokens.now) }
{
    counted(4, tokens)?;
    let cd = register_of(token_at(tokens, 1))?;
    let c1 = register_of(token_at(tokens, 2))?;
    let imm = immediate_of(token_at(tokens, 3))?;
    let len = immediate_up_to(u128::from(MAX_IMMEDIATE_LENGTH), imm)? as u16;
    Ok(Form::SetBoundsImm(cd, c1, len))
}

/// `cd, i`, from 0 to `MAX_UPPER_IMMEDIATE`
fn upper_form(op: UpperOp, tokens: &[&[u8]]) -> Result<Form, ListingFaultKind>
    ensures { result ≡ upper_form op (texts tokens.now) }
{
    counted(3, tokens)?;
    let cd = register_of(token_at(tokens, 1))?;
    let imm = immediate_of(token_at(tokens, 2))?;
    let imm = immediate_up_to(u128::from(MAX_UPPER_IMMEDIATE), imm)? as u32;
    Ok(Form::Upper(op, cd, imm))
}

/// `cd, i(c1)`
fn load_form(op: LoadOp, tokens: &[&[u8]]) -> Result<Form, ListingFaultKind>
    ensures { result ≡ load_form op (texts tokens.now) }
{
    counted(3, tokens)?;
    let cd = register_of(token_at(tokens, 1))?;
    let operand = memory_operand_of(token_at(tokens, 2))?;
    let imm = immediate_of_12_bits(operand.imm)?;
    Ok(Form::Load(op, cd, operand.c1, imm))
}

/// `c2, i(c1)`
fn store_form(op: StoreOp, tokens: &[&[u8]]) -> Result<Form, ListingFaultKind>
    ensures { result ≡ store_form op (texts tokens.now) }
{
    counted(3, tokens)?;
    let c2 = register_of(token_at(tokens, 1))?;
    let operand = memory_operand_of(token_at(tokens, 2))?;
    let imm = immediate_of_12_bits(operand.imm)?;
    Ok(Form::Store(op, c2, operand.c1, imm))
}

/// `cd, c2, c1`
fn swap_form(tokens: &[&[u8]]) -> Result<Form, ListingFaultKind>
    ensures { result ≡ swap_form (texts tokens.now) }
{
    counted(4, tokens)?;
    let cd = register_of(token_at(tokens, 1))?;
    let c2 = register_of(token_at(tokens, 2))?;
    let c1 = register_of(token_at(tokens, 3))?;
    Ok(Form::Swap(cd, c2, c1))
}

/// `c1, c2, target`
fn branch_form(
    labels: &Labels<'_>,
    op: BranchOp,
    tokens: &[&[u8]],
) -> Result<Form, ListingFaultKind>
    ensures { result ≡ branch_form (label_parts labels.now) op (texts tokens.now) }
{
    counted(4, tokens)?;
    let c1 = register_of(token_at(tokens, 1))?;
    let c2 = register_of(token_at(tokens, 2))?;
    let operand = target_operand_of(labels, token_at(tokens, 3))?;
    let target = target_of(labels, operand)?;
    Ok(Form::Branch(op, c1, c2, target))
}

/// `cd, target`
fn jump_form(labels: &Labels<'_>, tokens: &[&[u8]]) -> Result<Form, ListingFaultKind>
    ensures { result ≡ jump_form (label_parts labels.now) (texts tokens.now) }
{
    counted(3, tokens)?;
    let cd = register_of(token_at(tokens, 1))?;
    let operand = target_operand_of(labels, token_at(tokens, 2))?;
    let target = target_of(labels, operand)?;
    Ok(Form::Jump(cd, target))
}

/// `c1, c2`
fn invoke_form(tokens: &[&[u8]]) -> Result<Form, ListingFaultKind>
    ensures { result ≡ invoke_form (texts tokens.now) }
{
    counted(3, tokens)?;
    let c1 = register_of(token_at(tokens, 1))?;
    let c2 = register_of(token_at(tokens, 2))?;
    Ok(Form::Invoke(c1, c2))
}

/// No operands.
fn alone_form(tokens: &[&[u8]]) -> Result<Form, ListingFaultKind>
    ensures { result ≡ alone_form (texts tokens.now) }
{
    counted(1, tokens)?;
    Ok(Form::Alone)
}

/// The operands of an instruction's line: their count and shapes, then their ranges, then labels.
pub fn form_from(
    labels: &Labels<'_>,
    mnemonic: Mnemonic,
    tokens: &[&[u8]],
) -> Result<Form, ListingFaultKind>
    ensures { result ≡ form_from (label_parts labels.now) mnemonic (texts tokens.now) }
{
    match mnemonic {
        Mnemonic::Three(op) => three_form(op, tokens),
        Mnemonic::Two(op) => two_form(op, tokens),
        Mnemonic::Immediate(op) => immediate_form(op, tokens),
        Mnemonic::Shift(op) => shift_form(op, tokens),
        Mnemonic::WordShift(op) => word_shift_form(op, tokens),
        Mnemonic::SetBoundsImm => set_bounds_form(tokens),
        Mnemonic::Upper(op) => upper_form(op, tokens),
        Mnemonic::Load(op) => load_form(op, tokens),
        Mnemonic::Store(op) => store_form(op, tokens),
        Mnemonic::Swap => swap_form(tokens),
        Mnemonic::Branch(op) => branch_form(labels, op, tokens),
        Mnemonic::Jump => jump_form(labels, tokens),
        Mnemonic::Invoke => invoke_form(tokens),
        Mnemonic::Alone => alone_form(tokens),
    }
}
