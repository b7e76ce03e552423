//! The forms of operands: instructions sorted by the operands that they take.
#![tactic(auto, unfolding(crate::proofs::Unfold::instr))]

ghost use Rattle.std.specs.Prelude.{◌≡◌};
ghost use Rattle.cheri_model.specs.instructions.Form.{
  instr_of,
  three_instr,
  two_instr,
  immediate_instr,
  shift_instr,
  word_shift_instr,
  upper_instr,
  load_instr,
  store_instr,
  branch_instr,
};

use crate::instr::Instr;
use crate::operands::{Reg, Target};

/// The instructions on three registers, `cd`, `c1`, `c2`.
#[derive(Clone, Copy, Debug, PartialEq, Eq)]
pub enum ThreeOp {
    CSetAddr,
    CIncOffset,
    CSetBounds,
    CSetBoundsExact,
    CAndPerm,
    CSetFlags,
    CSetHigh,
    CSeal,
    CUnseal,
    CBuildCap,
    CTestSubset,
    CSetEqualExact,
    Add,
    Sub,
    Sll,
    Slt,
    Sltu,
    Xor,
    Srl,
    Sra,
    Or,
    And,
    Addw,
    Subw,
    Sllw,
    Srlw,
    Sraw,
}

/// The instructions on two registers, `cd`, `c1`.
#[derive(Clone, Copy, Debug, PartialEq, Eq)]
pub enum TwoOp {
    CMove,
    CClearTag,
    CSealEntry,
    CGetPerm,
    CGetType,
    CGetBase,
    CGetLen,
    CGetTag,
    CGetSealed,
    CGetOffset,
    CGetFlags,
    CGetAddr,
    CGetHigh,
    Crrl,
    Cram,
}

/// The instructions on `cd`, `c1` and a signed immediate.
#[derive(Clone, Copy, Debug, PartialEq, Eq)]
pub enum ImmediateOp {
    CIncOffsetImm,
    Addi,
    Slti,
    Sltiu,
    Xori,
    Ori,
    Andi,
    Addiw,
}

/// The instructions on `cd`, `c1` and a shift amount.
#[derive(Clone, Copy, Debug, PartialEq, Eq)]
pub enum ShiftOp {
    Slli,
    Srli,
    Srai,
}

/// The instructions on `cd`, `c1` and a shift amount of 32 bits.
#[derive(Clone, Copy, Debug, PartialEq, Eq)]
pub enum WordShiftOp {
    Slliw,
    Srliw,
    Sraiw,
}

/// The instructions on `cd` and an immediate for the upper bits.
#[derive(Clone, Copy, Debug, PartialEq, Eq)]
pub enum UpperOp {
    Lui,
    AuiPcc,
}

/// The instructions on `cd` and an offset from `c1`.
#[derive(Clone, Copy, Debug, PartialEq, Eq)]
pub enum LoadOp {
    Lb,
    Lbu,
    Lh,
    Lhu,
    Lw,
    Lwu,
    Ld,
    Lc,
    CJalr,
}

/// The instructions on `c2` and an offset from `c1`.
#[derive(Clone, Copy, Debug, PartialEq, Eq)]
pub enum StoreOp {
    Sb,
    Sh,
    Sw,
    Sd,
    Sc,
}

/// The instructions on `c1`, `c2` and a target.
#[derive(Clone, Copy, Debug, PartialEq, Eq)]
pub enum BranchOp {
    Beq,
    Bne,
    Blt,
    Bge,
    Bltu,
    Bgeu,
}

/// An instruction as its form has it: the name among those of this form, and the operands in a
/// listing's order.
#[derive(Clone, Copy, Debug, PartialEq, Eq)]
pub enum Form {
    Three(ThreeOp, Reg, Reg, Reg),
    Two(TwoOp, Reg, Reg),
    Immediate(ImmediateOp, Reg, Reg, i16),
    Shift(ShiftOp, Reg, Reg, u8),
    WordShift(WordShiftOp, Reg, Reg, u8),
    SetBoundsImm(Reg, Reg, u16),
    Upper(UpperOp, Reg, u32),
    Load(LoadOp, Reg, Reg, i16),
    Store(StoreOp, Reg, Reg, i16),
    Swap(Reg, Reg, Reg),
    Branch(BranchOp, Reg, Reg, Target),
    Jump(Reg, Target),
    Invoke(Reg, Reg),
    Alone,
}

impl ThreeOp {
    /// The instruction of this name with these operands.
    fn instr(self, cd: Reg, c1: Reg, c2: Reg) -> Instr
        ensures { result ≡ three_instr self cd c1 c2 }
    {
        match self {
            ThreeOp::CSetAddr => Instr::CSetAddr { cd, c1, c2 },
            ThreeOp::CIncOffset => Instr::CIncOffset { cd, c1, c2 },
            ThreeOp::CSetBounds => Instr::CSetBounds { cd, c1, c2 },
            ThreeOp::CSetBoundsExact => Instr::CSetBoundsExact { cd, c1, c2 },
            ThreeOp::CAndPerm => Instr::CAndPerm { cd, c1, c2 },
            ThreeOp::CSetFlags => Instr::CSetFlags { cd, c1, c2 },
            ThreeOp::CSetHigh => Instr::CSetHigh { cd, c1, c2 },
            ThreeOp::CSeal => Instr::CSeal { cd, c1, c2 },
            ThreeOp::CUnseal => Instr::CUnseal { cd, c1, c2 },
            ThreeOp::CBuildCap => Instr::CBuildCap { cd, c1, c2 },
            ThreeOp::CTestSubset => Instr::CTestSubset { cd, c1, c2 },
            ThreeOp::CSetEqualExact => Instr::CSetEqualExact { cd, c1, c2 },
            ThreeOp::Add => Instr::Add { cd, c1, c2 },
            ThreeOp::Sub => Instr::Sub { cd, c1, c2 },
            ThreeOp::Sll => Instr::Sll { cd, c1, c2 },
            ThreeOp::Slt => Instr::Slt { cd, c1, c2 },
            ThreeOp::Sltu => Instr::Sltu { cd, c1, c2 },
            ThreeOp::Xor => Instr::Xor { cd, c1, c2 },
            ThreeOp::Srl => Instr::Srl { cd, c1, c2 },
            ThreeOp::Sra => Instr::Sra { cd, c1, c2 },
            ThreeOp::Or => Instr::Or { cd, c1, c2 },
            ThreeOp::And => Instr::And { cd, c1, c2 },
            ThreeOp::Addw => Instr::Addw { cd, c1, c2 },
            ThreeOp::Subw => Instr::Subw { cd, c1, c2 },
            ThreeOp::Sllw => Instr::Sllw { cd, c1, c2 },
            ThreeOp::Srlw => Instr::Srlw { cd, c1, c2 },
            ThreeOp::Sraw => Instr::Sraw { cd, c1, c2 },
        }
    }
}

impl TwoOp {
    /// The instruction of this name with these operands.
    fn instr(self, cd: Reg, c1: Reg) -> Instr
        ensures { result ≡ two_instr self cd c1 }
    {
        match self {
            TwoOp::CMove => Instr::CMove { cd, c1 },
            TwoOp::CClearTag => Instr::CClearTag { cd, c1 },
            TwoOp::CSealEntry => Instr::CSealEntry { cd, c1 },
            TwoOp::CGetPerm => Instr::CGetPerm { cd, c1 },
            TwoOp::CGetType => Instr::CGetType { cd, c1 },
            TwoOp::CGetBase => Instr::CGetBase { cd, c1 },
            TwoOp::CGetLen => Instr::CGetLen { cd, c1 },
            TwoOp::CGetTag => Instr::CGetTag { cd, c1 },
            TwoOp::CGetSealed => Instr::CGetSealed { cd, c1 },
            TwoOp::CGetOffset => Instr::CGetOffset { cd, c1 },
            TwoOp::CGetFlags => Instr::CGetFlags { cd, c1 },
            TwoOp::CGetAddr => Instr::CGetAddr { cd, c1 },
            TwoOp::CGetHigh => Instr::CGetHigh { cd, c1 },
            TwoOp::Crrl => Instr::Crrl { cd, c1 },
            TwoOp::Cram => Instr::Cram { cd, c1 },
        }
    }
}

impl ImmediateOp {
    /// The instruction of this name with these operands.
    fn instr(self, cd: Reg, c1: Reg, imm: i16) -> Instr
        ensures { result ≡ immediate_instr self cd c1 imm }
    {
        match self {
            ImmediateOp::CIncOffsetImm => Instr::CIncOffsetImm { cd, c1, imm },
            ImmediateOp::Addi => Instr::Addi { cd, c1, imm },
            ImmediateOp::Slti => Instr::Slti { cd, c1, imm },
            ImmediateOp::Sltiu => Instr::Sltiu { cd, c1, imm },
            ImmediateOp::Xori => Instr::Xori { cd, c1, imm },
            ImmediateOp::Ori => Instr::Ori { cd, c1, imm },
            ImmediateOp::Andi => Instr::Andi { cd, c1, imm },
            ImmediateOp::Addiw => Instr::Addiw { cd, c1, imm },
        }
    }
}

impl ShiftOp {
    /// The instruction of this name with these operands.
    fn instr(self, cd: Reg, c1: Reg, amount: u8) -> Instr
        ensures { result ≡ shift_instr self cd c1 amount }
    {
        match self {
            ShiftOp::Slli => Instr::Slli { cd, c1, amount },
            ShiftOp::Srli => Instr::Srli { cd, c1, amount },
            ShiftOp::Srai => Instr::Srai { cd, c1, amount },
        }
    }
}

impl WordShiftOp {
    /// The instruction of this name with these operands.
    fn instr(self, cd: Reg, c1: Reg, amount: u8) -> Instr
        ensures { result ≡ word_shift_instr self cd c1 amount }
    {
        match self {
            WordShiftOp::Slliw => Instr::Slliw { cd, c1, amount },
            WordShiftOp::Srliw => Instr::Srliw { cd, c1, amount },
            WordShiftOp::Sraiw => Instr::Sraiw { cd, c1, amount },
        }
    }
}

impl UpperOp {
    /// The instruction of this name with these operands.
    fn instr(self, cd: Reg, imm: u32) -> Instr
        ensures { result ≡ upper_instr self cd imm }
    {
        match self {
            UpperOp::Lui => Instr::Lui { cd, imm },
            UpperOp::AuiPcc => Instr::AuiPcc { cd, imm },
        }
    }
}

impl LoadOp {
    /// The instruction of this name with these operands.
    fn instr(self, cd: Reg, c1: Reg, imm: i16) -> Instr
        ensures { result ≡ load_instr self cd c1 imm }
    {
        match self {
            LoadOp::Lb => Instr::Lb { cd, c1, imm },
            LoadOp::Lbu => Instr::Lbu { cd, c1, imm },
            LoadOp::Lh => Instr::Lh { cd, c1, imm },
            LoadOp::Lhu => Instr::Lhu { cd, c1, imm },
            LoadOp::Lw => Instr::Lw { cd, c1, imm },
            LoadOp::Lwu => Instr::Lwu { cd, c1, imm },
            LoadOp::Ld => Instr::Ld { cd, c1, imm },
            LoadOp::Lc => Instr::Lc { cd, c1, imm },
            LoadOp::CJalr => Instr::CJalr { cd, c1, imm },
        }
    }
}

impl StoreOp {
    /// The instruction of this name with these operands.
    fn instr(self, c2: Reg, c1: Reg, imm: i16) -> Instr
        ensures { result ≡ store_instr self c2 c1 imm }
    {
        match self {
            StoreOp::Sb => Instr::Sb { c2, c1, imm },
            StoreOp::Sh => Instr::Sh { c2, c1, imm },
            StoreOp::Sw => Instr::Sw { c2, c1, imm },
            StoreOp::Sd => Instr::Sd { c2, c1, imm },
            StoreOp::Sc => Instr::Sc { c2, c1, imm },
        }
    }
}

impl BranchOp {
    /// The instruction of this name with these operands.
    fn instr(self, c1: Reg, c2: Reg, target: Target) -> Instr
        ensures { result ≡ branch_instr self c1 c2 target }
    {
        match self {
            BranchOp::Beq => Instr::Beq { c1, c2, target },
            BranchOp::Bne => Instr::Bne { c1, c2, target },
            BranchOp::Blt => Instr::Blt { c1, c2, target },
            BranchOp::Bge => Instr::Bge { c1, c2, target },
            BranchOp::Bltu => Instr::Bltu { c1, c2, target },
            BranchOp::Bgeu => Instr::Bgeu { c1, c2, target },
        }
    }
}

impl Form {
    /// The instruction of this form.
    pub fn instr(self) -> Instr
        ensures { result ≡ instr_of self }
    {
        match self {
            Form::Three(op, cd, c1, c2) => op.instr(cd, c1, c2),
            Form::Two(op, cd, c1) => op.instr(cd, c1),
            Form::Immediate(op, cd, c1, imm) => op.instr(cd, c1, imm),
            Form::Shift(op, cd, c1, amount) => op.instr(cd, c1, amount),
            Form::WordShift(op, cd, c1, amount) => op.instr(cd, c1, amount),
            Form::SetBoundsImm(cd, c1, len) => Instr::CSetBoundsImm { cd, c1, len },
            Form::Upper(op, cd, imm) => op.instr(cd, imm),
            Form::Load(op, cd, c1, imm) => op.instr(cd, c1, imm),
            Form::Store(op, c2, c1, imm) => op.instr(c2, c1, imm),
            Form::Swap(cd, c2, c1) => Instr::AmoSwapC { cd, c2, c1 },
            Form::Branch(op, c1, c2, target) => op.instr(c1, c2, target),
            Form::Jump(cd, target) => Instr::CJal { cd, target },
            Form::Invoke(c1, c2) => Instr::CInvoke { c1, c2 },
            Form::Alone => Instr::Ecall,
        }
    }
}
