//! Instructions of assembly as they are written, without their value.

use cheri_model::Reg;
use cheri_model::form::{
    BranchOp, ImmediateOp, LoadOp, ShiftOp, StoreOp, ThreeOp, TwoOp, UpperOp, WordShiftOp,
};

/// The pseudo-instructions on a destination and one source.
#[derive(Clone, Copy, Debug, PartialEq, Eq)]
pub enum PseudoTwoOp {
    Mv,
    Not,
    Neg,
    Negw,
    SextW,
    ZextB,
    SextB,
    SextH,
    ZextH,
    ZextW,
    Seqz,
    Snez,
    Sltz,
    Sgtz,
}

/// The pseudo-instructions on a destination and two sources.
#[derive(Clone, Copy, Debug, PartialEq, Eq)]
pub enum PseudoThreeOp {
    Sgt,
    Sgtu,
    CSub,
}

/// The branches that compare two registers the other way round.
#[derive(Clone, Copy, Debug, PartialEq, Eq)]
pub enum PseudoBranchOp {
    Bgt,
    Ble,
    Bgtu,
    Bleu,
}

/// The branches that compare a register with 0.
#[derive(Clone, Copy, Debug, PartialEq, Eq)]
pub enum ZeroBranchOp {
    Beqz,
    Bnez,
    Bltz,
    Bgez,
    Bgtz,
    Blez,
}

/// What an instruction of assembly does, with its registers in the order in which they are
/// written. An instruction has at most one value beside them: an immediate, a constant, the
/// number of the instruction that it goes to, or, of a pair, the distance from its `auipcc` to
/// what it reaches.
#[derive(Clone, Copy, Debug, PartialEq, Eq)]
pub enum Operation {
    /// `cd`, `c1`, `c2`.
    Three(ThreeOp, Reg, Reg, Reg),
    /// `cd`, `c1`.
    Two(TwoOp, Reg, Reg),
    /// `cd`, `c1`, and an immediate from -2,048 to 2,047.
    Immediate(ImmediateOp, Reg, Reg),
    /// `cd`, `c1`, and an amount from 0 to 63.
    Shift(ShiftOp, Reg, Reg),
    /// `cd`, `c1`, and an amount from 0 to 31.
    WordShift(WordShiftOp, Reg, Reg),
    /// `cd`, `c1`, and a length from 0 to 4,095.
    SetBoundsImm(Reg, Reg),
    /// `cd`, and an immediate of 20 bits.
    Upper(UpperOp, Reg),
    /// `cd`, and an offset from -2,048 to 2,047 from `c1`.
    Load(LoadOp, Reg, Reg),
    /// `c2`, and an offset from -2,048 to 2,047 from `c1`.
    Store(StoreOp, Reg, Reg),
    /// `cd`, `c2`, `c1`.
    Swap(Reg, Reg, Reg),
    /// `c1`, `c2`, and a target.
    Branch(BranchOp, Reg, Reg),
    /// `cd`, and a target.
    Jump(Reg),
    /// `c1`, `c2`.
    Invoke(Reg, Reg),
    /// `ecall`.
    Alone,
    /// `nop` and the fences: memory is sequentially consistent.
    Nop,
    /// `unimp` and `ebreak`, which trap.
    Unimp,
    /// A destination and a source.
    PseudoTwo(PseudoTwoOp, Reg, Reg),
    /// A destination and two sources.
    PseudoThree(PseudoThreeOp, Reg, Reg, Reg),
    /// Two sources and a target.
    PseudoBranch(PseudoBranchOp, Reg, Reg),
    /// A source and a target.
    ZeroBranch(ZeroBranchOp, Reg),
    /// A destination and any constant.
    Li(Reg),
    /// The register of the link, and a distance.
    Call(Reg),
    /// A distance.
    Tail,
    /// A destination and a distance: the capability of the place.
    Cllc(Reg),
    /// A destination and a distance: the entry of the capability table there.
    Clgc(Reg),
    /// A destination and a distance: what is loaded from there.
    LoadSymbol(LoadOp, Reg),
    /// A destination and a distance: the address of the place.
    La(Reg),
}
