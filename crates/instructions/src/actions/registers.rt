//! The instructions on two and three registers.
#![tactic(auto, unfolding(crate::proofs::Unfold::registers))]

ghost use Rattle.std.specs.Prelude.{◌≡◌, ◌%◌, ◌^◌};
ghost use Rattle.cheri_model.specs.steps.Actions.{action, Put};
ghost use Rattle.cheri_model.specs.instructions.Form.{three_instr, two_instr};
ghost use Rattle.cheri_model.specs.steps.Hart.{word_of_integer};
ghost use Rattle.cap_model.specs.results.Readings.{number_of};
ghost use Rattle.instructions.specs.Actions.{action_of};

use crate::actions::Action;
use crate::integers::{
    is_less_signed, number_of, shifted_arithmetic, shifted_left, shifted_right, word_difference,
    word_shifted_arithmetic, word_shifted_left, word_shifted_right, word_sum,
};
use bitflags::Flags;
use cap_bounds::{cram, crrl};
use cap_ops::Cap;
use cheri_model::Reg;
use cheri_model::form::{ThreeOp, TwoOp};
use hart::Hart;

/// Writes a value to `cd`.
pub fn put(cd: Reg, value: Cap) -> Action
    ensures { action_of result ≡ Put cd value }
{
    Action::Put { cd, value }
}

/// Writes an integer to `cd`.
pub fn put_integer(cd: Reg, number: u64) -> Action
    ensures { action_of result ≡ Put cd (word_of_integer number) }
{
    Action::Put {
        cd,
        value: Cap::of_int(number),
    }
}

/// Writes 1 or 0 to `cd`.
pub fn put_truth(cd: Reg, holds: bool) -> Action
    ensures { action_of result ≡ Put cd (word_of_integer (number_of holds)) }
{
    put_integer(cd, number_of(holds))
}

/// What an instruction on three registers asks for.
#[inline(always)]
pub fn three_action(op: ThreeOp, cd: Reg, c1: Reg, c2: Reg, hart: &Hart) -> Action
    ensures { action_of result ≡ action (three_instr op cd c1 c2) hart.now }
{
    let (v, w) = (hart.register(c1), hart.register(c2));
    let (a, b) = (v.addr(), w.addr());
    match op {
        ThreeOp::CSetAddr => put(cd, v.set_addr(b)),
        ThreeOp::CIncOffset => put(cd, v.inc_offset(b)),
        ThreeOp::CSetBounds => put(cd, v.set_bounds(b)),
        ThreeOp::CSetBoundsExact => put(cd, v.set_bounds_exact(b)),
        ThreeOp::CAndPerm => put(cd, v.and_perm(b)),
        ThreeOp::CSetFlags => put(cd, v.set_flags(b)),
        ThreeOp::CSetHigh => put(cd, v.set_high(b)),
        ThreeOp::CSeal => put(cd, v.seal(w)),
        ThreeOp::CUnseal => put(cd, v.unseal(w)),
        ThreeOp::CBuildCap => put(cd, v.build(w)),
        ThreeOp::CTestSubset => put_truth(cd, v.test_subset(w)),
        ThreeOp::CSetEqualExact => put_truth(cd, v.equal_exact(w)),
        ThreeOp::Add => put_integer(cd, a.wrapping_add(b)),
        ThreeOp::Sub => put_integer(cd, a.wrapping_sub(b)),
        ThreeOp::Sll => put_integer(cd, shifted_left(a, b)),
        ThreeOp::Slt => put_truth(cd, is_less_signed(a, b)),
        ThreeOp::Sltu => put_truth(cd, a < b),
        ThreeOp::Xor => put_integer(cd, a ^ b),
        ThreeOp::Srl => put_integer(cd, shifted_right(a, b)),
        ThreeOp::Sra => put_integer(cd, shifted_arithmetic(a, b)),
        ThreeOp::Or => put_integer(cd, a | b),
        ThreeOp::And => put_integer(cd, a & b),
        ThreeOp::Addw => put_integer(cd, word_sum(a, b)),
        ThreeOp::Subw => put_integer(cd, word_difference(a, b)),
        ThreeOp::Sllw => put_integer(cd, word_shifted_left(a, b)),
        ThreeOp::Srlw => put_integer(cd, word_shifted_right(a, b)),
        ThreeOp::Sraw => put_integer(cd, word_shifted_arithmetic(a, b)),
    }
}

/// What an instruction on two registers asks for.
#[inline(always)]
pub fn two_action(op: TwoOp, cd: Reg, c1: Reg, hart: &Hart) -> Action
    ensures { action_of result ≡ action (two_instr op cd c1) hart.now }
{
    let v = hart.register(c1);
    match op {
        TwoOp::CMove => put(cd, v),
        TwoOp::CClearTag => put(cd, v.clear_tag()),
        TwoOp::CSealEntry => put(cd, v.seal_entry()),
        TwoOp::CGetPerm => put_integer(cd, u64::from(v.perm().bits())),
        TwoOp::CGetType => put_integer(cd, v.otype()),
        TwoOp::CGetBase => put_integer(cd, v.base()),
        TwoOp::CGetLen => put_integer(cd, v.len()),
        TwoOp::CGetTag => put_truth(cd, v.tag()),
        TwoOp::CGetSealed => put_truth(cd, v.sealed()),
        TwoOp::CGetOffset => put_integer(cd, v.offset()),
        TwoOp::CGetFlags => put_integer(cd, u64::from(v.flags())),
        TwoOp::CGetAddr => put_integer(cd, v.addr()),
        TwoOp::CGetHigh => put_integer(cd, v.high()),
        TwoOp::Crrl => put_integer(cd, crrl(v.addr())),
        TwoOp::Cram => put_integer(cd, cram(v.addr())),
    }
}
