//! The names of instructions.

ghost use Rattle.std.specs.Prelude.{◌≡◌, ◌++◌, OnOk, map};
ghost use Rattle.std.specs.Char.{to_ascii_lowercase};
ghost use Rattle.asm_mnemonics.specs.Mnemonics.{mnemonic_of};

use asm_expansions::{PseudoBranchOp, PseudoThreeOp, PseudoTwoOp, ZeroBranchOp};
use cheri_model::form::{
    BranchOp, ImmediateOp, LoadOp, ShiftOp, StoreOp, ThreeOp, TwoOp, WordShiftOp,
};
use cheri_model::table::found_at;
use std::alloc::AllocError;

/// What an instruction's name says: which instruction it is, and which operands it takes. `rd` and
/// `rs` are x names, `cd` and `cs` c names, and `i` is an immediate of 12 bits.
#[derive(Clone, Copy, Debug, PartialEq, Eq)]
pub enum Mnemonic {
    /// `rd, rs, rs`.
    Three(ThreeOp),
    /// `rd, rs, rs` or `rd, rs, i`.
    ThreeOrImmediate(ThreeOp, ImmediateOp),
    /// `rd, rs, rs`, or an amount from 0 to 63.
    ThreeOrShift(ThreeOp, ShiftOp),
    /// `rd, rs, rs`, or an amount from 0 to 31.
    ThreeOrWordShift(ThreeOp, WordShiftOp),
    /// `rd, rs, i`.
    Immediate(ImmediateOp),
    /// `rd, rs` and an amount from 0 to 63.
    Shift(ShiftOp),
    /// `rd, rs` and an amount from 0 to 31.
    WordShift(WordShiftOp),
    /// `rd` and 20 bits.
    Lui,
    /// `cd` and 20 bits.
    Auipcc,
    /// `rd` and memory, or `rd` and a symbol.
    Load(LoadOp),
    /// `rd, (cs)`.
    LoadAlone(LoadOp),
    /// `rs` and memory.
    Store(StoreOp),
    /// `rs, (cs)`.
    StoreAlone(StoreOp),
    /// `cd` and memory.
    LoadCapability,
    /// `cd, (cs)`.
    LoadCapabilityAlone,
    /// `cs` and memory.
    StoreCapability,
    /// `cs, (cs)`.
    StoreCapabilityAlone,
    /// `cd, cs, (cs)`.
    Swap,
    /// `rs, rs` and a target.
    Branch(BranchOp),
    /// `rs, rs` and a target.
    PseudoBranch(PseudoBranchOp),
    /// `rs` and a target.
    ZeroBranch(ZeroBranchOp),
    /// A target.
    Jump,
    /// `cd` and a target, or a target alone.
    JumpAndLink,
    /// `cs`, memory, `cd, cs`, `cd` and memory, or `cd, cs, i`.
    JumpRegisterAndLink,
    /// `cd, cs`.
    JumpRegisterPlain,
    /// `cs` or memory.
    JumpRegister,
    /// Nothing: a jump through the link.
    Return,
    /// Nothing: `ecall`.
    Alone,
    /// Nothing: a trap.
    Unimp,
    /// Nothing.
    Nop,
    /// Nothing, or two sets of accesses.
    Fence,
    /// `rd, rs`.
    PseudoTwo(PseudoTwoOp),
    /// `rd, rs, rs`.
    PseudoThree(PseudoThreeOp),
    /// `rd` and a constant.
    Li,
    /// `rd, cs`.
    Inspect(TwoOp),
    /// `cd, cs`.
    Modify(TwoOp),
    /// `rd, rs`.
    Round(TwoOp),
    /// `cd, cs, rs`.
    ModifyBy(ThreeOp),
    /// `cd, cs, rs` or `cd, cs, i`.
    IncOffset,
    /// `cd, cs, i`.
    IncOffsetImm,
    /// `cd, cs, rs` or `cd, cs` and a length.
    SetBounds,
    /// `cd, cs` and a length.
    SetBoundsImm,
    /// `cd, cs, cs`.
    ModifyTogether(ThreeOp),
    /// `rd, cs, cs`.
    Compare(ThreeOp),
    /// `rd, cs, cs`: the difference of addresses.
    Csub,
    /// `cs, cs`.
    Invoke,
    /// A symbol, or `cd` and a symbol.
    Call,
    /// A symbol.
    Tail,
    /// `cd` and a symbol: the capability of its place.
    Cllc,
    /// `cd` and a symbol: its entry in the capability table.
    Clgc,
    /// `rd` and a symbol: its address.
    La,
}

const MNEMONICS: &[(&str, Mnemonic)] = &[
    ("sub", Mnemonic::Three(ThreeOp::Sub)),
    ("subw", Mnemonic::Three(ThreeOp::Subw)),
    (
        "add",
        Mnemonic::ThreeOrImmediate(ThreeOp::Add, ImmediateOp::Addi),
    ),
    ("addi", Mnemonic::Immediate(ImmediateOp::Addi)),
    (
        "xor",
        Mnemonic::ThreeOrImmediate(ThreeOp::Xor, ImmediateOp::Xori),
    ),
    ("xori", Mnemonic::Immediate(ImmediateOp::Xori)),
    (
        "or",
        Mnemonic::ThreeOrImmediate(ThreeOp::Or, ImmediateOp::Ori),
    ),
    ("ori", Mnemonic::Immediate(ImmediateOp::Ori)),
    (
        "and",
        Mnemonic::ThreeOrImmediate(ThreeOp::And, ImmediateOp::Andi),
    ),
    ("andi", Mnemonic::Immediate(ImmediateOp::Andi)),
    (
        "slt",
        Mnemonic::ThreeOrImmediate(ThreeOp::Slt, ImmediateOp::Slti),
    ),
    ("slti", Mnemonic::Immediate(ImmediateOp::Slti)),
    (
        "sltu",
        Mnemonic::ThreeOrImmediate(ThreeOp::Sltu, ImmediateOp::Sltiu),
    ),
    ("sltiu", Mnemonic::Immediate(ImmediateOp::Sltiu)),
    (
        "addw",
        Mnemonic::ThreeOrImmediate(ThreeOp::Addw, ImmediateOp::Addiw),
    ),
    ("addiw", Mnemonic::Immediate(ImmediateOp::Addiw)),
    ("sll", Mnemonic::ThreeOrShift(ThreeOp::Sll, ShiftOp::Slli)),
    ("slli", Mnemonic::Shift(ShiftOp::Slli)),
    (
        "sllw",
        Mnemonic::ThreeOrWordShift(ThreeOp::Sllw, WordShiftOp::Slliw),
    ),
    ("slliw", Mnemonic::WordShift(WordShiftOp::Slliw)),
    ("srl", Mnemonic::ThreeOrShift(ThreeOp::Srl, ShiftOp::Srli)),
    ("srli", Mnemonic::Shift(ShiftOp::Srli)),
    (
        "srlw",
        Mnemonic::ThreeOrWordShift(ThreeOp::Srlw, WordShiftOp::Srliw),
    ),
    ("srliw", Mnemonic::WordShift(WordShiftOp::Srliw)),
    ("sra", Mnemonic::ThreeOrShift(ThreeOp::Sra, ShiftOp::Srai)),
    ("srai", Mnemonic::Shift(ShiftOp::Srai)),
    (
        "sraw",
        Mnemonic::ThreeOrWordShift(ThreeOp::Sraw, WordShiftOp::Sraiw),
    ),
    ("sraiw", Mnemonic::WordShift(WordShiftOp::Sraiw)),
    ("lui", Mnemonic::Lui),
    ("auipcc", Mnemonic::Auipcc),
    ("lb", Mnemonic::Load(LoadOp::Lb)),
    ("clb", Mnemonic::Load(LoadOp::Lb)),
    ("lb.cap", Mnemonic::LoadAlone(LoadOp::Lb)),
    ("lh", Mnemonic::Load(LoadOp::Lh)),
    ("clh", Mnemonic::Load(LoadOp::Lh)),
    ("lh.cap", Mnemonic::LoadAlone(LoadOp::Lh)),
    ("lw", Mnemonic::Load(LoadOp::Lw)),
    ("clw", Mnemonic::Load(LoadOp::Lw)),
    ("lw.cap", Mnemonic::LoadAlone(LoadOp::Lw)),
    ("ld", Mnemonic::Load(LoadOp::Ld)),
    ("cld", Mnemonic::Load(LoadOp::Ld)),
    ("ld.cap", Mnemonic::LoadAlone(LoadOp::Ld)),
    ("lbu", Mnemonic::Load(LoadOp::Lbu)),
    ("clbu", Mnemonic::Load(LoadOp::Lbu)),
    ("lbu.cap", Mnemonic::LoadAlone(LoadOp::Lbu)),
    ("lhu", Mnemonic::Load(LoadOp::Lhu)),
    ("clhu", Mnemonic::Load(LoadOp::Lhu)),
    ("lhu.cap", Mnemonic::LoadAlone(LoadOp::Lhu)),
    ("lwu", Mnemonic::Load(LoadOp::Lwu)),
    ("clwu", Mnemonic::Load(LoadOp::Lwu)),
    ("lwu.cap", Mnemonic::LoadAlone(LoadOp::Lwu)),
    ("sb", Mnemonic::Store(StoreOp::Sb)),
    ("csb", Mnemonic::Store(StoreOp::Sb)),
    ("sb.cap", Mnemonic::StoreAlone(StoreOp::Sb)),
    ("sh", Mnemonic::Store(StoreOp::Sh)),
    ("csh", Mnemonic::Store(StoreOp::Sh)),
    ("sh.cap", Mnemonic::StoreAlone(StoreOp::Sh)),
    ("sw", Mnemonic::Store(StoreOp::Sw)),
    ("csw", Mnemonic::Store(StoreOp::Sw)),
    ("sw.cap", Mnemonic::StoreAlone(StoreOp::Sw)),
    ("sd", Mnemonic::Store(StoreOp::Sd)),
    ("csd", Mnemonic::Store(StoreOp::Sd)),
    ("sd.cap", Mnemonic::StoreAlone(StoreOp::Sd)),
    ("lc", Mnemonic::LoadCapability),
    ("clc", Mnemonic::LoadCapability),
    ("lc.cap", Mnemonic::LoadCapabilityAlone),
    ("sc", Mnemonic::StoreCapability),
    ("csc", Mnemonic::StoreCapability),
    ("sc.cap", Mnemonic::StoreCapabilityAlone),
    ("amoswap.c", Mnemonic::Swap),
    ("camoswap.c", Mnemonic::Swap),
    ("amoswap.c.aq", Mnemonic::Swap),
    ("camoswap.c.aq", Mnemonic::Swap),
    ("amoswap.c.rl", Mnemonic::Swap),
    ("camoswap.c.rl", Mnemonic::Swap),
    ("amoswap.c.aqrl", Mnemonic::Swap),
    ("camoswap.c.aqrl", Mnemonic::Swap),
    ("beq", Mnemonic::Branch(BranchOp::Beq)),
    ("bne", Mnemonic::Branch(BranchOp::Bne)),
    ("blt", Mnemonic::Branch(BranchOp::Blt)),
    ("bge", Mnemonic::Branch(BranchOp::Bge)),
    ("bltu", Mnemonic::Branch(BranchOp::Bltu)),
    ("bgeu", Mnemonic::Branch(BranchOp::Bgeu)),
    ("bgt", Mnemonic::PseudoBranch(PseudoBranchOp::Bgt)),
    ("ble", Mnemonic::PseudoBranch(PseudoBranchOp::Ble)),
    ("bgtu", Mnemonic::PseudoBranch(PseudoBranchOp::Bgtu)),
    ("bleu", Mnemonic::PseudoBranch(PseudoBranchOp::Bleu)),
    ("beqz", Mnemonic::ZeroBranch(ZeroBranchOp::Beqz)),
    ("bnez", Mnemonic::ZeroBranch(ZeroBranchOp::Bnez)),
    ("bgez", Mnemonic::ZeroBranch(ZeroBranchOp::Bgez)),
    ("bltz", Mnemonic::ZeroBranch(ZeroBranchOp::Bltz)),
    ("blez", Mnemonic::ZeroBranch(ZeroBranchOp::Blez)),
    ("bgtz", Mnemonic::ZeroBranch(ZeroBranchOp::Bgtz)),
    ("j", Mnemonic::Jump),
    ("cj", Mnemonic::Jump),
    ("jal", Mnemonic::JumpAndLink),
    ("cjal", Mnemonic::JumpAndLink),
    ("jalr", Mnemonic::JumpRegisterAndLink),
    ("cjalr", Mnemonic::JumpRegisterAndLink),
    ("jalr.cap", Mnemonic::JumpRegisterPlain),
    ("jr", Mnemonic::JumpRegister),
    ("cjr", Mnemonic::JumpRegister),
    ("ret", Mnemonic::Return),
    ("cret", Mnemonic::Return),
    ("ecall", Mnemonic::Alone),
    ("scall", Mnemonic::Alone),
    ("unimp", Mnemonic::Unimp),
    ("ebreak", Mnemonic::Unimp),
    ("sbreak", Mnemonic::Unimp),
    ("nop", Mnemonic::Nop),
    ("fence.tso", Mnemonic::Nop),
    ("fence", Mnemonic::Fence),
    ("mv", Mnemonic::PseudoTwo(PseudoTwoOp::Mv)),
    ("move", Mnemonic::PseudoTwo(PseudoTwoOp::Mv)),
    ("not", Mnemonic::PseudoTwo(PseudoTwoOp::Not)),
    ("neg", Mnemonic::PseudoTwo(PseudoTwoOp::Neg)),
    ("negw", Mnemonic::PseudoTwo(PseudoTwoOp::Negw)),
    ("sext.w", Mnemonic::PseudoTwo(PseudoTwoOp::SextW)),
    ("zext.b", Mnemonic::PseudoTwo(PseudoTwoOp::ZextB)),
    ("sext.b", Mnemonic::PseudoTwo(PseudoTwoOp::SextB)),
    ("sext.h", Mnemonic::PseudoTwo(PseudoTwoOp::SextH)),
    ("zext.h", Mnemonic::PseudoTwo(PseudoTwoOp::ZextH)),
    ("zext.w", Mnemonic::PseudoTwo(PseudoTwoOp::ZextW)),
    ("seqz", Mnemonic::PseudoTwo(PseudoTwoOp::Seqz)),
    ("snez", Mnemonic::PseudoTwo(PseudoTwoOp::Snez)),
    ("sltz", Mnemonic::PseudoTwo(PseudoTwoOp::Sltz)),
    ("sgtz", Mnemonic::PseudoTwo(PseudoTwoOp::Sgtz)),
    ("sgt", Mnemonic::PseudoThree(PseudoThreeOp::Sgt)),
    ("sgtu", Mnemonic::PseudoThree(PseudoThreeOp::Sgtu)),
    ("li", Mnemonic::Li),
    ("cgetperm", Mnemonic::Inspect(TwoOp::CGetPerm)),
    ("cgettype", Mnemonic::Inspect(TwoOp::CGetType)),
    ("cgetbase", Mnemonic::Inspect(TwoOp::CGetBase)),
    ("cgetaddr", Mnemonic::Inspect(TwoOp::CGetAddr)),
    ("cgethigh", Mnemonic::Inspect(TwoOp::CGetHigh)),
    ("cgetflags", Mnemonic::Inspect(TwoOp::CGetFlags)),
    ("cgettag", Mnemonic::Inspect(TwoOp::CGetTag)),
    ("cgetlen", Mnemonic::Inspect(TwoOp::CGetLen)),
    ("cgetoffset", Mnemonic::Inspect(TwoOp::CGetOffset)),
    ("cgetsealed", Mnemonic::Inspect(TwoOp::CGetSealed)),
    ("cmove", Mnemonic::Modify(TwoOp::CMove)),
    ("ccleartag", Mnemonic::Modify(TwoOp::CClearTag)),
    ("csealentry", Mnemonic::Modify(TwoOp::CSealEntry)),
    ("crrl", Mnemonic::Round(TwoOp::Crrl)),
    ("croundrepresentablelength", Mnemonic::Round(TwoOp::Crrl)),
    ("cram", Mnemonic::Round(TwoOp::Cram)),
    ("crepresentablealignmentmask", Mnemonic::Round(TwoOp::Cram)),
    ("csetaddr", Mnemonic::ModifyBy(ThreeOp::CSetAddr)),
    (
        "csetboundsexact",
        Mnemonic::ModifyBy(ThreeOp::CSetBoundsExact),
    ),
    ("candperm", Mnemonic::ModifyBy(ThreeOp::CAndPerm)),
    ("csetflags", Mnemonic::ModifyBy(ThreeOp::CSetFlags)),
    ("csethigh", Mnemonic::ModifyBy(ThreeOp::CSetHigh)),
    ("cincoffset", Mnemonic::IncOffset),
    ("cincoffsetimm", Mnemonic::IncOffsetImm),
    ("csetbounds", Mnemonic::SetBounds),
    ("csetboundsimm", Mnemonic::SetBoundsImm),
    ("cseal", Mnemonic::ModifyTogether(ThreeOp::CSeal)),
    ("cunseal", Mnemonic::ModifyTogether(ThreeOp::CUnseal)),
    ("cbuildcap", Mnemonic::ModifyTogether(ThreeOp::CBuildCap)),
    ("ctestsubset", Mnemonic::Compare(ThreeOp::CTestSubset)),
    ("csetequalexact", Mnemonic::Compare(ThreeOp::CSetEqualExact)),
    ("cseqx", Mnemonic::Compare(ThreeOp::CSetEqualExact)),
    ("csub", Mnemonic::Csub),
    ("cinvoke", Mnemonic::Invoke),
    ("ccall", Mnemonic::Call),
    ("call", Mnemonic::Call),
    ("ctail", Mnemonic::Tail),
    ("tail", Mnemonic::Tail),
    ("cllc", Mnemonic::Cllc),
    ("clgc", Mnemonic::Clgc),
    ("la", Mnemonic::La),
    ("lla", Mnemonic::La),
];

/// What a name in small letters says; `None` where it is no instruction's.
#[tactic(auto, unfolding(crate::specs::Mnemonics::mnemonic_of))]
pub fn mnemonic_of(name: &[u8]) -> Option<Mnemonic>
    ensures { result ≡ mnemonic_of name.now }
{
    found_at(MNEMONICS, name)
}

/// Appends a name in small letters: an instruction's may have capitals.
pub fn push_small(out: &mut Vec<u8>, name: &[u8]) -> Result<(), AllocError>
    ensures { OnOk result (out.new.items ≡ out.old.items ++ map to_ascii_lowercase name.now) }
{
    for byte in name {
        out.push(byte.to_ascii_lowercase())?;
    }
    Ok(())
}
