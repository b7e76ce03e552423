//! Instructions as they stand in a program, one variant for each name.

ghost use Rattle.std.specs.Prelude.{◌≡◌};
ghost use Rattle.cheri_model.specs.instructions.Form.{form_of};

use crate::form::{
    BranchOp, Form, ImmediateOp, LoadOp, ShiftOp, StoreOp, ThreeOp, TwoOp, UpperOp, WordShiftOp,
};
use crate::operands::{Reg, Target};
use std::fmt::{Debug, Error, Formatter, Write};

/// One instruction, named as the standard names it (CHERI ISA v9, "CHERI-RISC-V instructions";
/// RISC-V unprivileged ISA, "RV64I"), with the destination `cd` and the sources `c1` and `c2`.
/// Where a register is read as an integer its address counts. A capability that is changed keeps
/// its tag only where the instruction may make it from `c1`; the value is written in either case.
/// Listings have immediates of 12 bits, of `lui` and `auipcc` of 20, and shift amounts below 64.
#[derive(Clone, Copy)]
pub enum Instr {
    /// `c1` with the address that is `c2`'s.
    CSetAddr { cd: Reg, c1: Reg, c2: Reg },
    /// `c1` with its address raised by `c2`'s, modulo 2^64.
    CIncOffset { cd: Reg, c1: Reg, c2: Reg },
    /// `c1` with its bounds narrowed to its address and the length `c2`, and rounded outwards.
    CSetBounds { cd: Reg, c1: Reg, c2: Reg },
    /// As `CSetBounds`, without a tag where the bounds would be rounded.
    CSetBoundsExact { cd: Reg, c1: Reg, c2: Reg },
    /// `c1` with the permissions that are also in the mask `c2`.
    CAndPerm { cd: Reg, c1: Reg, c2: Reg },
    /// `c1` with the flag that is the lowest bit of `c2`.
    CSetFlags { cd: Reg, c1: Reg, c2: Reg },
    /// `c1` with the upper half that is `c2`'s address, without a tag.
    CSetHigh { cd: Reg, c1: Reg, c2: Reg },
    /// `c1` sealed with the object type that is the address of the authority `c2`.
    CSeal { cd: Reg, c1: Reg, c2: Reg },
    /// `c1` unsealed by the authority `c2`, whose address is the object type; Global only where
    /// both have it.
    CUnseal { cd: Reg, c1: Reg, c2: Reg },
    /// The capability that the word of `c2` says, unsealed, where it lies in the authority `c1`.
    CBuildCap { cd: Reg, c1: Reg, c2: Reg },
    /// 1 where `c2`'s bounds and permissions lie in `c1`'s and the tags are equal, else 0.
    CTestSubset { cd: Reg, c1: Reg, c2: Reg },
    /// 1 where `c1` and `c2` are equal, word and tag, else 0.
    CSetEqualExact { cd: Reg, c1: Reg, c2: Reg },
    /// The sum of the addresses, modulo 2^64.
    Add { cd: Reg, c1: Reg, c2: Reg },
    /// The first address less the second, modulo 2^64.
    Sub { cd: Reg, c1: Reg, c2: Reg },
    /// The first address shifted left by the low 6 bits of the second.
    Sll { cd: Reg, c1: Reg, c2: Reg },
    /// 1 where the first address is less than the second as a signed number, else 0.
    Slt { cd: Reg, c1: Reg, c2: Reg },
    /// 1 where the first address is less than the second, else 0.
    Sltu { cd: Reg, c1: Reg, c2: Reg },
    /// The exclusive or of the addresses, bit by bit.
    Xor { cd: Reg, c1: Reg, c2: Reg },
    /// The first address shifted right by the low 6 bits of the second.
    Srl { cd: Reg, c1: Reg, c2: Reg },
    /// As `Srl`, and the sign fills the high bits.
    Sra { cd: Reg, c1: Reg, c2: Reg },
    /// The or of the addresses, bit by bit.
    Or { cd: Reg, c1: Reg, c2: Reg },
    /// The and of the addresses, bit by bit.
    And { cd: Reg, c1: Reg, c2: Reg },
    /// The sum of the low 32 bits, sign-extended from 32 bits.
    Addw { cd: Reg, c1: Reg, c2: Reg },
    /// The difference of the low 32 bits, sign-extended from 32 bits.
    Subw { cd: Reg, c1: Reg, c2: Reg },
    /// The low 32 bits shifted left by the low 5 bits of `c2`, sign-extended from 32 bits.
    Sllw { cd: Reg, c1: Reg, c2: Reg },
    /// The low 32 bits shifted right by the low 5 bits of `c2`, sign-extended from 32 bits.
    Srlw { cd: Reg, c1: Reg, c2: Reg },
    /// As `Srlw`, and the sign of the 32 bits fills the high ones.
    Sraw { cd: Reg, c1: Reg, c2: Reg },
    /// `c1` as it is.
    CMove { cd: Reg, c1: Reg },
    /// `c1` without a tag.
    CClearTag { cd: Reg, c1: Reg },
    /// `c1` sealed as a sentry.
    CSealEntry { cd: Reg, c1: Reg },
    /// The permissions of `c1`.
    CGetPerm { cd: Reg, c1: Reg },
    /// The object type of `c1`.
    CGetType { cd: Reg, c1: Reg },
    /// The base of `c1`.
    CGetBase { cd: Reg, c1: Reg },
    /// The length of `c1`'s bounds, at most 2^64 - 1.
    CGetLen { cd: Reg, c1: Reg },
    /// The tag of `c1`, 0 or 1.
    CGetTag { cd: Reg, c1: Reg },
    /// 1 where `c1` has any type but unsealed, else 0.
    CGetSealed { cd: Reg, c1: Reg },
    /// The address of `c1` less its base, modulo 2^64.
    CGetOffset { cd: Reg, c1: Reg },
    /// The flag of `c1`, 0 or 1.
    CGetFlags { cd: Reg, c1: Reg },
    /// The address of `c1`.
    CGetAddr { cd: Reg, c1: Reg },
    /// The upper half of `c1`'s word.
    CGetHigh { cd: Reg, c1: Reg },
    /// The least length, from `c1`'s address on, that bounds at an aligned base can have, modulo
    /// 2^64.
    Crrl { cd: Reg, c1: Reg },
    /// The mask that aligns a base for the length `c1`'s address.
    Cram { cd: Reg, c1: Reg },
    /// `c1` with its address raised by the immediate, modulo 2^64.
    CIncOffsetImm { cd: Reg, c1: Reg, imm: i16 },
    /// The sum of `c1`'s address and the immediate, modulo 2^64.
    Addi { cd: Reg, c1: Reg, imm: i16 },
    /// 1 where `c1`'s address is less than the immediate as a signed number, else 0.
    Slti { cd: Reg, c1: Reg, imm: i16 },
    /// 1 where `c1`'s address is less than the immediate, sign-extended, as an unsigned number,
    /// else 0.
    Sltiu { cd: Reg, c1: Reg, imm: i16 },
    /// The exclusive or of `c1`'s address and the immediate, sign-extended.
    Xori { cd: Reg, c1: Reg, imm: i16 },
    /// The or of `c1`'s address and the immediate, sign-extended.
    Ori { cd: Reg, c1: Reg, imm: i16 },
    /// The and of `c1`'s address and the immediate, sign-extended.
    Andi { cd: Reg, c1: Reg, imm: i16 },
    /// The low 32 bits of `Addi`'s sum, sign-extended from 32 bits.
    Addiw { cd: Reg, c1: Reg, imm: i16 },
    /// `c1`'s address shifted left by the amount, modulo 64.
    Slli { cd: Reg, c1: Reg, amount: u8 },
    /// `c1`'s address shifted right by the amount, modulo 64.
    Srli { cd: Reg, c1: Reg, amount: u8 },
    /// As `Srli`, and the sign fills the high bits.
    Srai { cd: Reg, c1: Reg, amount: u8 },
    /// The low 32 bits shifted left by the amount, modulo 32, sign-extended from 32 bits.
    Slliw { cd: Reg, c1: Reg, amount: u8 },
    /// The low 32 bits shifted right by the amount, modulo 32, sign-extended from 32 bits.
    Srliw { cd: Reg, c1: Reg, amount: u8 },
    /// As `Srliw`, and the sign of the 32 bits fills the high ones.
    Sraiw { cd: Reg, c1: Reg, amount: u8 },
    /// `c1` with its bounds narrowed to its address and the length `len`, and rounded outwards.
    CSetBoundsImm { cd: Reg, c1: Reg, len: u16 },
    /// The immediate times 2^12, modulo 2^32, sign-extended from 32 bits.
    Lui { cd: Reg, imm: u32 },
    /// PCC with its address raised by what `Lui` gives, modulo 2^64.
    AuiPcc { cd: Reg, imm: u32 },
    /// A byte, sign-extended.
    Lb { cd: Reg, c1: Reg, imm: i16 },
    /// A byte.
    Lbu { cd: Reg, c1: Reg, imm: i16 },
    /// Two bytes, sign-extended.
    Lh { cd: Reg, c1: Reg, imm: i16 },
    /// Two bytes.
    Lhu { cd: Reg, c1: Reg, imm: i16 },
    /// Four bytes, sign-extended.
    Lw { cd: Reg, c1: Reg, imm: i16 },
    /// Four bytes.
    Lwu { cd: Reg, c1: Reg, imm: i16 },
    /// Eight bytes.
    Ld { cd: Reg, c1: Reg, imm: i16 },
    /// A granule's value, with its tag only where `c1` has Load_Capability.
    Lc { cd: Reg, c1: Reg, imm: i16 },
    /// Jumps through `c1`, unsealed where it is a sentry, to its address plus the immediate with
    /// bit 0 cleared, and leaves a link in `cd`.
    CJalr { cd: Reg, c1: Reg, imm: i16 },
    /// Stores the low byte of `c2`'s address.
    Sb { c2: Reg, c1: Reg, imm: i16 },
    /// Stores its low two bytes.
    Sh { c2: Reg, c1: Reg, imm: i16 },
    /// Stores its low four bytes.
    Sw { c2: Reg, c1: Reg, imm: i16 },
    /// Stores all of its eight bytes.
    Sd { c2: Reg, c1: Reg, imm: i16 },
    /// Stores the capability `c2` with its tag.
    Sc { c2: Reg, c1: Reg, imm: i16 },
    /// Loads the granule at `c1`'s address into `cd` as `Lc` does, and stores `c2` there.
    AmoSwapC { cd: Reg, c2: Reg, c1: Reg },
    /// Jumps where the addresses are equal.
    Beq { c1: Reg, c2: Reg, target: Target },
    /// Jumps where the addresses differ.
    Bne { c1: Reg, c2: Reg, target: Target },
    /// Jumps where the first address is less than the second as a signed number.
    Blt { c1: Reg, c2: Reg, target: Target },
    /// Jumps where the first address is not less than the second as a signed number.
    Bge { c1: Reg, c2: Reg, target: Target },
    /// Jumps where the first address is less than the second.
    Bltu { c1: Reg, c2: Reg, target: Target },
    /// Jumps where the first address is not less than the second.
    Bgeu { c1: Reg, c2: Reg, target: Target },
    /// Jumps, and leaves a link in `cd`.
    CJal { cd: Reg, target: Target },
    /// Jumps through the sealed `c1`, unsealed and with bit 0 of its address cleared, and leaves
    /// the sealed `c2`, of the same type, unsealed in c31.
    CInvoke { c1: Reg, c2: Reg },
    /// Halts the hart.
    Ecall,
}

impl Instr {
    /// The same instruction by its form: its name among those with the same operands, and the
    /// operands. Inlined, so that its form is not written to memory.
    #[inline(always)]
    #[tactic(auto, unfolding(crate::specs::instructions::Form::form_of))]
    pub fn form(self) -> Form
        ensures { result ≡ form_of self }
    {
        match self {
            Instr::CSetAddr { cd, c1, c2 } => Form::Three(ThreeOp::CSetAddr, cd, c1, c2),
            Instr::CIncOffset { cd, c1, c2 } => Form::Three(ThreeOp::CIncOffset, cd, c1, c2),
            Instr::CSetBounds { cd, c1, c2 } => Form::Three(ThreeOp::CSetBounds, cd, c1, c2),
            Instr::CSetBoundsExact { cd, c1, c2 } => {
                Form::Three(ThreeOp::CSetBoundsExact, cd, c1, c2)
            }
            Instr::CAndPerm { cd, c1, c2 } => Form::Three(ThreeOp::CAndPerm, cd, c1, c2),
            Instr::CSetFlags { cd, c1, c2 } => Form::Three(ThreeOp::CSetFlags, cd, c1, c2),
            Instr::CSetHigh { cd, c1, c2 } => Form::Three(ThreeOp::CSetHigh, cd, c1, c2),
            Instr::CSeal { cd, c1, c2 } => Form::Three(ThreeOp::CSeal, cd, c1, c2),
            Instr::CUnseal { cd, c1, c2 } => Form::Three(ThreeOp::CUnseal, cd, c1, c2),
            Instr::CBuildCap { cd, c1, c2 } => Form::Three(ThreeOp::CBuildCap, cd, c1, c2),
            Instr::CTestSubset { cd, c1, c2 } => Form::Three(ThreeOp::CTestSubset, cd, c1, c2),
            Instr::CSetEqualExact { cd, c1, c2 } => {
                Form::Three(ThreeOp::CSetEqualExact, cd, c1, c2)
            }
            Instr::Add { cd, c1, c2 } => Form::Three(ThreeOp::Add, cd, c1, c2),
            Instr::Sub { cd, c1, c2 } => Form::Three(ThreeOp::Sub, cd, c1, c2),
            Instr::Sll { cd, c1, c2 } => Form::Three(ThreeOp::Sll, cd, c1, c2),
            Instr::Slt { cd, c1, c2 } => Form::Three(ThreeOp::Slt, cd, c1, c2),
            Instr::Sltu { cd, c1, c2 } => Form::Three(ThreeOp::Sltu, cd, c1, c2),
            Instr::Xor { cd, c1, c2 } => Form::Three(ThreeOp::Xor, cd, c1, c2),
            Instr::Srl { cd, c1, c2 } => Form::Three(ThreeOp::Srl, cd, c1, c2),
            Instr::Sra { cd, c1, c2 } => Form::Three(ThreeOp::Sra, cd, c1, c2),
            Instr::Or { cd, c1, c2 } => Form::Three(ThreeOp::Or, cd, c1, c2),
            Instr::And { cd, c1, c2 } => Form::Three(ThreeOp::And, cd, c1, c2),
            Instr::Addw { cd, c1, c2 } => Form::Three(ThreeOp::Addw, cd, c1, c2),
            Instr::Subw { cd, c1, c2 } => Form::Three(ThreeOp::Subw, cd, c1, c2),
            Instr::Sllw { cd, c1, c2 } => Form::Three(ThreeOp::Sllw, cd, c1, c2),
            Instr::Srlw { cd, c1, c2 } => Form::Three(ThreeOp::Srlw, cd, c1, c2),
            Instr::Sraw { cd, c1, c2 } => Form::Three(ThreeOp::Sraw, cd, c1, c2),
            Instr::CMove { cd, c1 } => Form::Two(TwoOp::CMove, cd, c1),
            Instr::CClearTag { cd, c1 } => Form::Two(TwoOp::CClearTag, cd, c1),
            Instr::CSealEntry { cd, c1 } => Form::Two(TwoOp::CSealEntry, cd, c1),
            Instr::CGetPerm { cd, c1 } => Form::Two(TwoOp::CGetPerm, cd, c1),
            Instr::CGetType { cd, c1 } => Form::Two(TwoOp::CGetType, cd, c1),
            Instr::CGetBase { cd, c1 } => Form::Two(TwoOp::CGetBase, cd, c1),
            Instr::CGetLen { cd, c1 } => Form::Two(TwoOp::CGetLen, cd, c1),
            Instr::CGetTag { cd, c1 } => Form::Two(TwoOp::CGetTag, cd, c1),
            Instr::CGetSealed { cd, c1 } => Form::Two(TwoOp::CGetSealed, cd, c1),
            Instr::CGetOffset { cd, c1 } => Form::Two(TwoOp::CGetOffset, cd, c1),
            Instr::CGetFlags { cd, c1 } => Form::Two(TwoOp::CGetFlags, cd, c1),
            Instr::CGetAddr { cd, c1 } => Form::Two(TwoOp::CGetAddr, cd, c1),
            Instr::CGetHigh { cd, c1 } => Form::Two(TwoOp::CGetHigh, cd, c1),
            Instr::Crrl { cd, c1 } => Form::Two(TwoOp::Crrl, cd, c1),
            Instr::Cram { cd, c1 } => Form::Two(TwoOp::Cram, cd, c1),
            Instr::CIncOffsetImm { cd, c1, imm } => {
                Form::Immediate(ImmediateOp::CIncOffsetImm, cd, c1, imm)
            }
            Instr::Addi { cd, c1, imm } => Form::Immediate(ImmediateOp::Addi, cd, c1, imm),
            Instr::Slti { cd, c1, imm } => Form::Immediate(ImmediateOp::Slti, cd, c1, imm),
            Instr::Sltiu { cd, c1, imm } => Form::Immediate(ImmediateOp::Sltiu, cd, c1, imm),
            Instr::Xori { cd, c1, imm } => Form::Immediate(ImmediateOp::Xori, cd, c1, imm),
            Instr::Ori { cd, c1, imm } => Form::Immediate(ImmediateOp::Ori, cd, c1, imm),
            Instr::Andi { cd, c1, imm } => Form::Immediate(ImmediateOp::Andi, cd, c1, imm),
            Instr::Addiw { cd, c1, imm } => Form::Immediate(ImmediateOp::Addiw, cd, c1, imm),
            Instr::Slli { cd, c1, amount } => Form::Shift(ShiftOp::Slli, cd, c1, amount),
            Instr::Srli { cd, c1, amount } => Form::Shift(ShiftOp::Srli, cd, c1, amount),
            Instr::Srai { cd, c1, amount } => Form::Shift(ShiftOp::Srai, cd, c1, amount),
            Instr::Slliw { cd, c1, amount } => Form::WordShift(WordShiftOp::Slliw, cd, c1, amount),
            Instr::Srliw { cd, c1, amount } => Form::WordShift(WordShiftOp::Srliw, cd, c1, amount),
            Instr::Sraiw { cd, c1, amount } => Form::WordShift(WordShiftOp::Sraiw, cd, c1, amount),
            Instr::CSetBoundsImm { cd, c1, len } => Form::SetBoundsImm(cd, c1, len),
            Instr::Lui { cd, imm } => Form::Upper(UpperOp::Lui, cd, imm),
            Instr::AuiPcc { cd, imm } => Form::Upper(UpperOp::AuiPcc, cd, imm),
            Instr::Lb { cd, c1, imm } => Form::Load(LoadOp::Lb, cd, c1, imm),
            Instr::Lbu { cd, c1, imm } => Form::Load(LoadOp::Lbu, cd, c1, imm),
            Instr::Lh { cd, c1, imm } => Form::Load(LoadOp::Lh, cd, c1, imm),
            Instr::Lhu { cd, c1, imm } => Form::Load(LoadOp::Lhu, cd, c1, imm),
            Instr::Lw { cd, c1, imm } => Form::Load(LoadOp::Lw, cd, c1, imm),
            Instr::Lwu { cd, c1, imm } => Form::Load(LoadOp::Lwu, cd, c1, imm),
            Instr::Ld { cd, c1, imm } => Form::Load(LoadOp::Ld, cd, c1, imm),
            Instr::Lc { cd, c1, imm } => Form::Load(LoadOp::Lc, cd, c1, imm),
            Instr::CJalr { cd, c1, imm } => Form::Load(LoadOp::CJalr, cd, c1, imm),
            Instr::Sb { c2, c1, imm } => Form::Store(StoreOp::Sb, c2, c1, imm),
            Instr::Sh { c2, c1, imm } => Form::Store(StoreOp::Sh, c2, c1, imm),
            Instr::Sw { c2, c1, imm } => Form::Store(StoreOp::Sw, c2, c1, imm),
            Instr::Sd { c2, c1, imm } => Form::Store(StoreOp::Sd, c2, c1, imm),
            Instr::Sc { c2, c1, imm } => Form::Store(StoreOp::Sc, c2, c1, imm),
            Instr::AmoSwapC { cd, c2, c1 } => Form::Swap(cd, c2, c1),
            Instr::Beq { c1, c2, target } => Form::Branch(BranchOp::Beq, c1, c2, target),
            Instr::Bne { c1, c2, target } => Form::Branch(BranchOp::Bne, c1, c2, target),
            Instr::Blt { c1, c2, target } => Form::Branch(BranchOp::Blt, c1, c2, target),
            Instr::Bge { c1, c2, target } => Form::Branch(BranchOp::Bge, c1, c2, target),
            Instr::Bltu { c1, c2, target } => Form::Branch(BranchOp::Bltu, c1, c2, target),
            Instr::Bgeu { c1, c2, target } => Form::Branch(BranchOp::Bgeu, c1, c2, target),
            Instr::CJal { cd, target } => Form::Jump(cd, target),
            Instr::CInvoke { c1, c2 } => Form::Invoke(c1, c2),
            Instr::Ecall => Form::Alone,
        }
    }
}

impl PartialEq for Instr {
    ghost use Rattle.std.specs.Cmp.Rules.{comparing};
    ghost use Rattle.std.proofs.Common.{rules};
    ghost use Rattle.cheri_model.specs.instructions.SameInstrs.{same_instrs};
    ghost use Rattle.cheri_model.specs.contracts.form.FormPartialEq.TheImpl.Laws as form_laws;

    ghost eq = { same_instrs };

    ghost laws = { Prim.search (comparing, rules, form_laws.laws-law) depth 9 };

    fn eq(&self, other: &Instr) -> bool {
        self.form() == other.form()
    }
}

impl Eq for Instr {
    ghost use Rattle.std.specs.Cmp.Rules.{comparing};
    ghost use Rattle.std.proofs.Common.{rules};
    ghost use Rattle.cheri_model.specs.contracts.form.FormEq.TheImpl.Laws as form_equal;

    ghost laws = { Prim.search (comparing, rules, form_equal.laws-law) depth 9 };
}

impl Debug for Instr {
    fn fmt<W: Write>(&self, f: &mut Formatter<W>) -> Result<(), Error> {
        self.form().fmt(f)
    }
}
