//! Instructions that make a capability from one that they read, with their operands.
#![tactic(auto, unfolding(crate::proofs::Unfold::derivations))]

ghost use Rattle.std.specs.Prelude.{◌≡◌, ℕ, Some};
ghost use Rattle.std.specs.Option.{option_map};
ghost use Rattle.cheri_model.specs.instructions.Form.{
  instr_of,
  three_instr,
  two_instr,
  immediate_instr,
  upper_instr,
};
ghost use Rattle.origins.specs.Flows.{IsSpot};
ghost use Rattle.facts.specs.Operands.{operands, operands_by, derivation_of, model_of};
ghost use Rattle.cheri_model.specs.declared.instr.Instr.TheVariants.{CSetBoundsImm};

use cap_ops::Cap;
use cheri_model::Reg;
use cheri_model::form::{Form, ImmediateOp, ThreeOp, TwoOp, UpperOp};
use hart::Hart;
use instructions::{immediate, upper_immediate};
use origins::Spot;

/// An instruction that makes a capability from one that it reads; an immediate form is the form on
/// registers, with the immediate as an integer in place of c2.
#[derive(Clone, Copy)]
pub enum CapOp {
    CMove,
    CClearTag,
    CSetAddr,
    CIncOffset,
    CSetBounds,
    CSetBoundsExact,
    CAndPerm,
    CSetFlags,
    CSetHigh,
    CSeal,
    CUnseal,
    CSealEntry,
    CBuildCap,
}

/// What such an instruction reads: the source, of which its result is made, and the authority,
/// which is its other operand; with the register of the result.
#[derive(Clone, Copy)]
pub struct Operands {
    pub cd: Reg,
    pub source: Spot,
    pub authority: Spot,
    pub v: Cap,
    pub w: Cap,
}

/// Both.
#[derive(Clone, Copy)]
pub struct Derived {
    pub op: CapOp,
    pub on: Operands,
}

/// A register.
pub fn register(reg: Reg) -> Spot
    ensures value { result ≡ Spot.Register reg }
    ensures spot { (count : ℕ) → IsSpot count result }
{
    Spot::Register(reg.number())
}

/// The operands of an instruction on two registers.
fn on_registers(cd: Reg, c1: Reg, c2: Reg, hart: &Hart) -> Operands
    ensures { result ≡ operands cd c1 c2 hart.now }
{
    Operands {
        cd,
        source: register(c1),
        authority: register(c2),
        v: hart.register(c1),
        w: hart.register(c2),
    }
}

/// Those of an instruction on a source and an integer.
fn on_integer(cd: Reg, source: Spot, v: Cap, number: u64) -> Operands
    ensures { result ≡ operands_by cd source v number }
{
    Operands {
        cd,
        source,
        authority: source,
        v,
        w: Cap::of_int(number),
    }
}

/// An instruction with its operands.
fn with_op(op: CapOp, on: Operands) -> Option<Derived>
    ensures { option_map model_of result ≡ Some (model_of (record { op = op; on = on })) }
{
    Some(Derived { op, on })
}

/// Of those on three registers.
fn three_derived(op: ThreeOp, cd: Reg, c1: Reg, c2: Reg, hart: &Hart) -> Option<Derived>
    ensures { option_map model_of result ≡ derivation_of (three_instr op cd c1 c2) hart.now }
{
    let o = on_registers(cd, c1, c2, hart);
    match op {
        ThreeOp::CSetAddr => with_op(CapOp::CSetAddr, o),
        ThreeOp::CIncOffset => with_op(CapOp::CIncOffset, o),
        ThreeOp::CSetBounds => with_op(CapOp::CSetBounds, o),
        ThreeOp::CSetBoundsExact => with_op(CapOp::CSetBoundsExact, o),
        ThreeOp::CAndPerm => with_op(CapOp::CAndPerm, o),
        ThreeOp::CSetFlags => with_op(CapOp::CSetFlags, o),
        ThreeOp::CSetHigh => with_op(CapOp::CSetHigh, o),
        ThreeOp::CSeal => with_op(CapOp::CSeal, o),
        ThreeOp::CUnseal => with_op(CapOp::CUnseal, o),
        ThreeOp::CBuildCap => with_op(CapOp::CBuildCap, o),
        _ => None,
    }
}

/// Of those on two registers.
fn two_derived(op: TwoOp, cd: Reg, c1: Reg, hart: &Hart) -> Option<Derived>
    ensures { option_map model_of result ≡ derivation_of (two_instr op cd c1) hart.now }
{
    let o = on_registers(cd, c1, c1, hart);
    match op {
        TwoOp::CMove => with_op(CapOp::CMove, o),
        TwoOp::CClearTag => with_op(CapOp::CClearTag, o),
        TwoOp::CSealEntry => with_op(CapOp::CSealEntry, o),
        _ => None,
    }
}

/// Of those with a signed immediate.
fn immediate_derived(op: ImmediateOp, cd: Reg, c1: Reg, imm: i16, hart: &Hart) -> Option<Derived>
    ensures { option_map model_of result ≡ derivation_of (immediate_instr op cd c1 imm) hart.now }
{
    let o = on_integer(cd, register(c1), hart.register(c1), immediate(imm));
    match op {
        ImmediateOp::CIncOffsetImm => with_op(CapOp::CIncOffset, o),
        _ => None,
    }
}

/// Of those with an immediate for the upper bits.
fn upper_derived(op: UpperOp, cd: Reg, imm: u32, hart: &Hart) -> Option<Derived>
    ensures { option_map model_of result ≡ derivation_of (upper_instr op cd imm) hart.now }
{
    let o = on_integer(cd, Spot::Pcc, hart.pcc(), upper_immediate(imm));
    match op {
        UpperOp::AuiPcc => with_op(CapOp::CIncOffset, o),
        UpperOp::Lui => None,
    }
}

/// Of CSetBounds with an immediate.
fn set_bounds_derived(cd: Reg, c1: Reg, len: u16, hart: &Hart) -> Option<Derived>
    ensures { option_map model_of result ≡ derivation_of (CSetBoundsImm cd c1 len) hart.now }
{
    let o = on_integer(cd, register(c1), hart.register(c1), u64::from(len));
    with_op(CapOp::CSetBounds, o)
}

/// What an instruction of this form makes a capability by, if it does.
pub fn form_derived(form: Form, hart: &Hart) -> Option<Derived>
    ensures { option_map model_of result ≡ derivation_of (instr_of form) hart.now }
{
    match form {
        Form::Three(op, cd, c1, c2) => three_derived(op, cd, c1, c2, hart),
        Form::Two(op, cd, c1) => two_derived(op, cd, c1, hart),
        Form::Immediate(op, cd, c1, imm) => immediate_derived(op, cd, c1, imm, hart),
        Form::SetBoundsImm(cd, c1, len) => set_bounds_derived(cd, c1, len, hart),
        Form::Upper(op, cd, imm) => upper_derived(op, cd, imm, hart),
        _ => None,
    }
}
