//! The instructions with an immediate or a shift amount.
#![tactic(auto, using(crate::proofs::Unfold::back), unfolding(crate::proofs::Unfold::immediates))]

ghost use Rattle.std.specs.Prelude.{◌≡◌};
ghost use Rattle.cheri_model.specs.steps.Actions.{action};
ghost use Rattle.cheri_model.specs.instructions.Form.{
  immediate_instr,
  shift_instr,
  upper_instr,
  word_shift_instr,
};
ghost use Rattle.cheri_model.specs.declared.instr.Instr.TheVariants.{CSetBoundsImm};
ghost use Rattle.instructions.specs.Actions.{action_of};

use crate::actions::Action;
use crate::actions::registers::{put, put_integer, put_truth};
use crate::integers::{
    immediate, is_less_signed, shifted_arithmetic, shifted_left, shifted_right, upper_immediate,
    word_shifted_arithmetic, word_shifted_left, word_shifted_right, word_sum,
};
use cheri_model::Reg;
use cheri_model::form::{ImmediateOp, ShiftOp, UpperOp, WordShiftOp};
use hart::Hart;

/// What an instruction with a signed immediate asks for.
#[inline(always)]
pub fn immediate_action(op: ImmediateOp, cd: Reg, c1: Reg, imm: i16, hart: &Hart) -> Action
    ensures { action_of result ≡ action (immediate_instr op cd c1 imm) hart.now }
{
    let v = hart.register(c1);
    let (a, b) = (v.addr(), immediate(imm));
    match op {
        ImmediateOp::CIncOffsetImm => put(cd, v.inc_offset(b)),
        ImmediateOp::Addi => put_integer(cd, a.wrapping_add(b)),
        ImmediateOp::Slti => put_truth(cd, is_less_signed(a, b)),
        ImmediateOp::Sltiu => put_truth(cd, a < b),
        ImmediateOp::Xori => put_integer(cd, a ^ b),
        ImmediateOp::Ori => put_integer(cd, a | b),
        ImmediateOp::Andi => put_integer(cd, a & b),
        ImmediateOp::Addiw => put_integer(cd, word_sum(a, b)),
    }
}

/// What a shift by an amount asks for.
#[inline(always)]
pub fn shift_action(op: ShiftOp, cd: Reg, c1: Reg, amount: u8, hart: &Hart) -> Action
    ensures { action_of result ≡ action (shift_instr op cd c1 amount) hart.now }
{
    let (a, amount) = (hart.register(c1).addr(), u64::from(amount));
    match op {
        ShiftOp::Slli => put_integer(cd, shifted_left(a, amount)),
        ShiftOp::Srli => put_integer(cd, shifted_right(a, amount)),
        ShiftOp::Srai => put_integer(cd, shifted_arithmetic(a, amount)),
    }
}

/// What a shift of 32 bits by an amount asks for.
#[inline(always)]
pub fn word_shift_action(op: WordShiftOp, cd: Reg, c1: Reg, amount: u8, hart: &Hart) -> Action
    ensures { action_of result ≡ action (word_shift_instr op cd c1 amount) hart.now }
{
    let (a, amount) = (hart.register(c1).addr(), u64::from(amount));
    match op {
        WordShiftOp::Slliw => put_integer(cd, word_shifted_left(a, amount)),
        WordShiftOp::Srliw => put_integer(cd, word_shifted_right(a, amount)),
        WordShiftOp::Sraiw => put_integer(cd, word_shifted_arithmetic(a, amount)),
    }
}

/// What CSetBounds with an immediate asks for.
#[inline(always)]
pub fn set_bounds_action(cd: Reg, c1: Reg, len: u16, hart: &Hart) -> Action
    ensures { action_of result ≡ action (CSetBoundsImm cd c1 len) hart.now }
{
    put(cd, hart.register(c1).set_bounds(u64::from(len)))
}

/// What an instruction with an immediate for the upper bits asks for.
#[inline(always)]
pub fn upper_action(op: UpperOp, cd: Reg, imm: u32, hart: &Hart) -> Action
    ensures { action_of result ≡ action (upper_instr op cd imm) hart.now }
{
    let offset = upper_immediate(imm);
    match op {
        UpperOp::Lui => put_integer(cd, offset),
        UpperOp::AuiPcc => put(cd, hart.pcc().inc_offset(offset)),
    }
}
