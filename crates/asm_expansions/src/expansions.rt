//! The table of expansions.
#![tactic(auto, unfolding(crate::proofs::Unfold::expansions))]

ghost use Rattle.std.specs.Prelude.{◌≡◌, [], ◌∷◌, option_map};
ghost use Rattle.cheri_model.specs.instructions.Form.{
  instr_of,
  load_instr,
  immediate_instr,
  shift_instr,
};
ghost use Rattle.cheri_model.specs.declared.instr.Instr.TheVariants.{Slli};
ghost use Rattle.asm_expansions.specs.Expansions.{
  instrs_of,
  expansion_of,
  pseudo_two,
  pseudo_three,
  pseudo_branch,
  zero_branch,
  pair,
  target,
};
ghost use Rattle.asm_expansions.specs.Immediates.{bits_of, up_to, low};

use crate::expansion::Expansion;
use crate::immediates::{high_field, low, signed, up_to};
use crate::operation::{Operation, PseudoBranchOp, PseudoThreeOp, PseudoTwoOp, ZeroBranchOp};
use cheri_model::form::{BranchOp, Form, ImmediateOp, LoadOp, ShiftOp, ThreeOp};
use cheri_model::{
    Instr, MAX_IMMEDIATE_LENGTH, MAX_SHIFT, MAX_UPPER_IMMEDIATE, MAX_WORD_SHIFT, Reg, Target,
};

/// The register that is always null.
fn zero() -> Reg
    ensures { result ≡ 0 }
{
    Reg::new(0)
}

/// The instruction that a branch or a jump goes to. `None` where no number of 32 bits says it.
fn target(value: i64) -> Option<Target>
    ensures { result ≡ target value }
{
    Some(Target::new(up_to(u32::MAX, value)?))
}

/// A shift amount from 0 to a limit. `None` where the number isn't one.
fn amount(most: u8, value: i64) -> Option<u8>
    ensures { result ≡ up_to most value }
{
    match up_to(u32::from(most), value) {
        Some(amount) => Some(amount as u8),
        None => None,
    }
}

/// The length of `csetboundsimm`. `None` where the number is out of its range.
fn length(value: i64) -> Option<u16>
    ensures { result ≡ up_to MAX_IMMEDIATE_LENGTH value }
{
    match up_to(u32::from(MAX_IMMEDIATE_LENGTH), value) {
        Some(length) => Some(length as u16),
        None => None,
    }
}

/// One instruction, by its form.
fn one(form: Form) -> Expansion
    ensures { instrs_of result ≡ instr_of form ∷ [] }
{
    Expansion::One(form.instr())
}

/// An expansion that is one instruction, by its form.
fn alone(form: Form) -> Option<Expansion>
    ensures { option_map instrs_of result ≡ Some (instr_of form ∷ []) }
{
    Some(one(form))
}

/// `auipcc` to a distance, and then an instruction that goes through `c1`, plus the low part of the
/// distance. `None` where the distance is too far.
fn load_pair(op: LoadOp, cd: Reg, c1: Reg, distance: i64) -> Option<Expansion>
    ensures { option_map instrs_of result
        ≡ pair c1 (load_instr op cd c1 (low (bits_of distance))) distance }
{
    let imm = high_field(distance)?;
    let second = Form::Load(op, cd, c1, low(distance));
    Some(Expansion::Two(Instr::AuiPcc { cd: c1, imm }, second.instr()))
}

/// The same with an instruction that adds the low part of the distance.
fn immediate_pair(op: ImmediateOp, cd: Reg, distance: i64) -> Option<Expansion>
    ensures { option_map instrs_of result
        ≡ pair cd (immediate_instr op cd cd (low (bits_of distance))) distance }
{
    let imm = high_field(distance)?;
    let second = Form::Immediate(op, cd, cd, low(distance));
    Some(Expansion::Two(Instr::AuiPcc { cd, imm }, second.instr()))
}

/// The shift left by some bits, and then a shift back by as many.
fn two_shifts(op: ShiftOp, d: Reg, s: Reg, amount: u8) -> Expansion
    ensures { instrs_of result ≡ Slli d s amount ∷ shift_instr op d d amount ∷ [] }
{
    let first = Form::Shift(ShiftOp::Slli, d, s, amount);
    Expansion::Two(first.instr(), Form::Shift(op, d, d, amount).instr())
}

impl PseudoTwoOp {
    /// The instructions of this name with these registers.
    fn expand(self, d: Reg, s: Reg) -> Expansion
        ensures { instrs_of result ≡ pseudo_two self d s }
    {
        match self {
            PseudoTwoOp::Mv => one(Form::Immediate(ImmediateOp::Addi, d, s, 0)),
            PseudoTwoOp::Not => one(Form::Immediate(ImmediateOp::Xori, d, s, -1)),
            PseudoTwoOp::Neg => one(Form::Three(ThreeOp::Sub, d, zero(), s)),
            PseudoTwoOp::Negw => one(Form::Three(ThreeOp::Subw, d, zero(), s)),
            PseudoTwoOp::SextW => one(Form::Immediate(ImmediateOp::Addiw, d, s, 0)),
            PseudoTwoOp::ZextB => one(Form::Immediate(ImmediateOp::Andi, d, s, 255)),
            PseudoTwoOp::SextB => two_shifts(ShiftOp::Srai, d, s, 56),
            PseudoTwoOp::SextH => two_shifts(ShiftOp::Srai, d, s, 48),
            PseudoTwoOp::ZextH => two_shifts(ShiftOp::Srli, d, s, 48),
            PseudoTwoOp::ZextW => two_shifts(ShiftOp::Srli, d, s, 32),
            PseudoTwoOp::Seqz => one(Form::Immediate(ImmediateOp::Sltiu, d, s, 1)),
            PseudoTwoOp::Snez => one(Form::Three(ThreeOp::Sltu, d, zero(), s)),
            PseudoTwoOp::Sltz => one(Form::Three(ThreeOp::Slt, d, s, zero())),
            PseudoTwoOp::Sgtz => one(Form::Three(ThreeOp::Slt, d, zero(), s)),
        }
    }
}

impl PseudoThreeOp {
    /// The instruction of this name with these registers.
    fn form(self, d: Reg, s: Reg, t: Reg) -> Form
        ensures { instr_of result ≡ pseudo_three self d s t }
    {
        match self {
            PseudoThreeOp::Sgt => Form::Three(ThreeOp::Slt, d, t, s),
            PseudoThreeOp::Sgtu => Form::Three(ThreeOp::Sltu, d, t, s),
            PseudoThreeOp::CSub => Form::Three(ThreeOp::Sub, d, s, t),
        }
    }
}

impl PseudoBranchOp {
    /// The instruction of this name with these operands.
    fn form(self, s: Reg, t: Reg, target: Target) -> Form
        ensures { instr_of result ≡ pseudo_branch self s t target }
    {
        match self {
            PseudoBranchOp::Bgt => Form::Branch(BranchOp::Blt, t, s, target),
            PseudoBranchOp::Ble => Form::Branch(BranchOp::Bge, t, s, target),
            PseudoBranchOp::Bgtu => Form::Branch(BranchOp::Bltu, t, s, target),
            PseudoBranchOp::Bleu => Form::Branch(BranchOp::Bgeu, t, s, target),
        }
    }
}

impl ZeroBranchOp {
    /// The instruction of this name with these operands.
    fn form(self, s: Reg, target: Target) -> Form
        ensures { instr_of result ≡ zero_branch self s target }
    {
        match self {
            ZeroBranchOp::Beqz => Form::Branch(BranchOp::Beq, s, zero(), target),
            ZeroBranchOp::Bnez => Form::Branch(BranchOp::Bne, s, zero(), target),
            ZeroBranchOp::Bltz => Form::Branch(BranchOp::Blt, s, zero(), target),
            ZeroBranchOp::Bgez => Form::Branch(BranchOp::Bge, s, zero(), target),
            ZeroBranchOp::Bgtz => Form::Branch(BranchOp::Blt, zero(), s, target),
            ZeroBranchOp::Blez => Form::Branch(BranchOp::Bge, zero(), s, target),
        }
    }
}

impl Operation {
    /// The instructions that this one stands for, with its value. `None` where the value is out of
    /// its range.
    pub fn expand(self, value: i64) -> Option<Expansion>
        ensures { option_map instrs_of result ≡ expansion_of self value }
    {
        match self {
            Operation::Three(op, cd, c1, c2) => alone(Form::Three(op, cd, c1, c2)),
            Operation::Two(op, cd, c1) => alone(Form::Two(op, cd, c1)),
            Operation::Immediate(op, cd, c1) => alone(Form::Immediate(op, cd, c1, signed(value)?)),
            Operation::Shift(op, cd, c1) => alone(Form::Shift(
                op,
                cd,
                c1,
                amount(MAX_SHIFT, value)?,
            )),
            Operation::WordShift(op, cd, c1) => {
                alone(Form::WordShift(op, cd, c1, amount(MAX_WORD_SHIFT, value)?))
            }
            Operation::SetBoundsImm(cd, c1) => alone(Form::SetBoundsImm(cd, c1, length(value)?)),
            Operation::Upper(op, cd) => alone(Form::Upper(
                op,
                cd,
                up_to(MAX_UPPER_IMMEDIATE, value)?,
            )),
            Operation::Load(op, cd, c1) => alone(Form::Load(op, cd, c1, signed(value)?)),
            Operation::Store(op, c2, c1) => alone(Form::Store(op, c2, c1, signed(value)?)),
            Operation::Swap(cd, c2, c1) => alone(Form::Swap(cd, c2, c1)),
            Operation::Branch(op, c1, c2) => alone(Form::Branch(op, c1, c2, target(value)?)),
            Operation::Jump(cd) => alone(Form::Jump(cd, target(value)?)),
            Operation::Invoke(c1, c2) => alone(Form::Invoke(c1, c2)),
            Operation::Alone => alone(Form::Alone),
            Operation::Nop => alone(Form::Immediate(ImmediateOp::Addi, zero(), zero(), 0)),
            Operation::Unimp => alone(Form::Load(LoadOp::CJalr, zero(), zero(), 0)),
            Operation::PseudoTwo(op, d, s) => Some(op.expand(d, s)),
            Operation::PseudoThree(op, d, s, t) => alone(op.form(d, s, t)),
            Operation::PseudoBranch(op, s, t) => alone(op.form(s, t, target(value)?)),
            Operation::ZeroBranch(op, s) => alone(op.form(s, target(value)?)),
            Operation::Li(rd) => Some(Expansion::Constant(rd, value)),
            Operation::Call(cd) => load_pair(LoadOp::CJalr, cd, cd, value),
            Operation::Tail => load_pair(LoadOp::CJalr, zero(), Reg::new(6), value),
            Operation::Cllc(cd) => immediate_pair(ImmediateOp::CIncOffsetImm, cd, value),
            Operation::Clgc(cd) => load_pair(LoadOp::Lc, cd, cd, value),
            Operation::LoadSymbol(op, rd) => load_pair(op, rd, rd, value),
            Operation::La(rd) => immediate_pair(ImmediateOp::Addi, rd, value),
        }
    }
}
