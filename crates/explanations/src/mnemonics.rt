//! The names of instructions by their forms. A table that is searched takes longer than the rest of
//! an instruction's text.
#![tactic(auto, unfolding(crate::proofs::Unfold::names))]

ghost use Rattle.std.specs.Prelude.{◌≡◌};
ghost use Rattle.cheri_model.specs.instructions.Names.{name_of};
ghost use Rattle.cheri_model.specs.declared.names.Mnemonic.TheVariants as mnemonic;

use cheri_model::form::{
    BranchOp, ImmediateOp, LoadOp, ShiftOp, StoreOp, ThreeOp, TwoOp, UpperOp, WordShiftOp,
};

/// The name of an instruction on three registers.
pub(crate) fn three_name(op: ThreeOp) -> &'static str
    ensures { result.now ≡ name_of (mnemonic.Three op) }
{
    match op {
        ThreeOp::CSetAddr => "csetaddr",
        ThreeOp::CIncOffset => "cincoffset",
        ThreeOp::CSetBounds => "csetbounds",
        ThreeOp::CSetBoundsExact => "csetboundsexact",
        ThreeOp::CAndPerm => "candperm",
        ThreeOp::CSetFlags => "csetflags",
        ThreeOp::CSetHigh => "csethigh",
        ThreeOp::CSeal => "cseal",
        ThreeOp::CUnseal => "cunseal",
        ThreeOp::CBuildCap => "cbuildcap",
        ThreeOp::CTestSubset => "ctestsubset",
        ThreeOp::CSetEqualExact => "csetequalexact",
        ThreeOp::Add => "add",
        ThreeOp::Sub => "sub",
        ThreeOp::Sll => "sll",
        ThreeOp::Slt => "slt",
        ThreeOp::Sltu => "sltu",
        ThreeOp::Xor => "xor",
        ThreeOp::Srl => "srl",
        ThreeOp::Sra => "sra",
        ThreeOp::Or => "or",
        ThreeOp::And => "and",
        ThreeOp::Addw => "addw",
        ThreeOp::Subw => "subw",
        ThreeOp::Sllw => "sllw",
        ThreeOp::Srlw => "srlw",
        ThreeOp::Sraw => "sraw",
    }
}

/// The name of an instruction on two registers.
pub(crate) fn two_name(op: TwoOp) -> &'static str
    ensures { result.now ≡ name_of (mnemonic.Two op) }
{
    match op {
        TwoOp::CMove => "cmove",
        TwoOp::CClearTag => "ccleartag",
        TwoOp::CSealEntry => "csealentry",
        TwoOp::CGetPerm => "cgetperm",
        TwoOp::CGetType => "cgettype",
        TwoOp::CGetBase => "cgetbase",
        TwoOp::CGetLen => "cgetlen",
        TwoOp::CGetTag => "cgettag",
        TwoOp::CGetSealed => "cgetsealed",
        TwoOp::CGetOffset => "cgetoffset",
        TwoOp::CGetFlags => "cgetflags",
        TwoOp::CGetAddr => "cgetaddr",
        TwoOp::CGetHigh => "cgethigh",
        TwoOp::Crrl => "crrl",
        TwoOp::Cram => "cram",
    }
}

/// The name of an instruction on a register and a signed immediate.
pub(crate) fn immediate_name(op: ImmediateOp) -> &'static str
    ensures { result.now ≡ name_of (mnemonic.Immediate op) }
{
    match op {
        ImmediateOp::CIncOffsetImm => "cincoffsetimm",
        ImmediateOp::Addi => "addi",
        ImmediateOp::Slti => "slti",
        ImmediateOp::Sltiu => "sltiu",
        ImmediateOp::Xori => "xori",
        ImmediateOp::Ori => "ori",
        ImmediateOp::Andi => "andi",
        ImmediateOp::Addiw => "addiw",
    }
}

/// The name of an instruction that shifts.
pub(crate) fn shift_name(op: ShiftOp) -> &'static str
    ensures { result.now ≡ name_of (mnemonic.Shift op) }
{
    match op {
        ShiftOp::Slli => "slli",
        ShiftOp::Srli => "srli",
        ShiftOp::Srai => "srai",
    }
}

/// The name of an instruction that shifts 32 bits.
pub(crate) fn word_shift_name(op: WordShiftOp) -> &'static str
    ensures { result.now ≡ name_of (mnemonic.WordShift op) }
{
    match op {
        WordShiftOp::Slliw => "slliw",
        WordShiftOp::Srliw => "srliw",
        WordShiftOp::Sraiw => "sraiw",
    }
}

/// The name of an instruction with an immediate for the upper bits.
pub(crate) fn upper_name(op: UpperOp) -> &'static str
    ensures { result.now ≡ name_of (mnemonic.Upper op) }
{
    match op {
        UpperOp::Lui => "lui",
        UpperOp::AuiPcc => "auipcc",
    }
}

/// The name of an instruction with a load's operands.
pub(crate) fn load_name(op: LoadOp) -> &'static str
    ensures { result.now ≡ name_of (mnemonic.Load op) }
{
    match op {
        LoadOp::Lb => "lb",
        LoadOp::Lbu => "lbu",
        LoadOp::Lh => "lh",
        LoadOp::Lhu => "lhu",
        LoadOp::Lw => "lw",
        LoadOp::Lwu => "lwu",
        LoadOp::Ld => "ld",
        LoadOp::Lc => "lc",
        LoadOp::CJalr => "cjalr",
    }
}

/// The name of an instruction that stores.
pub(crate) fn store_name(op: StoreOp) -> &'static str
    ensures { result.now ≡ name_of (mnemonic.Store op) }
{
    match op {
        StoreOp::Sb => "sb",
        StoreOp::Sh => "sh",
        StoreOp::Sw => "sw",
        StoreOp::Sd => "sd",
        StoreOp::Sc => "sc",
    }
}

/// The name of an instruction that branches.
pub(crate) fn branch_name(op: BranchOp) -> &'static str
    ensures { result.now ≡ name_of (mnemonic.Branch op) }
{
    match op {
        BranchOp::Beq => "beq",
        BranchOp::Bne => "bne",
        BranchOp::Blt => "blt",
        BranchOp::Bge => "bge",
        BranchOp::Bltu => "bltu",
        BranchOp::Bgeu => "bgeu",
    }
}
