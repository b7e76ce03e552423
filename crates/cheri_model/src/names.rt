//! The names of instructions, as listings spell them.
#![tactic(auto, unfolding(crate::proofs::Unfold::names))]

ghost use Rattle.std.specs.Prelude.{◌≡◌, option_map, map};
ghost use Rattle.cheri_model.specs.instructions.Tables.{found_at, rows_of};
ghost use Rattle.cheri_model.specs.instructions.Names.{
  names_from,
  mnemonic_of,
  is_instruction,
  name_among,
  name_in,
  name_of,
};

use crate::form::{
    BranchOp, ImmediateOp, LoadOp, ShiftOp, StoreOp, ThreeOp, TwoOp, UpperOp, WordShiftOp,
};
use crate::table::found_at;

/// An instruction without its operands: the form of its operands, and which one of that form it is.
#[derive(Clone, Copy, Debug, PartialEq, Eq)]
pub enum Mnemonic {
    Three(ThreeOp),
    Two(TwoOp),
    Immediate(ImmediateOp),
    Shift(ShiftOp),
    WordShift(WordShiftOp),
    SetBoundsImm,
    Upper(UpperOp),
    Load(LoadOp),
    Store(StoreOp),
    Swap,
    Branch(BranchOp),
    Jump,
    Invoke,
    Alone,
}

// The names by their first letter, since that alone rules most of them out.

const A_NAMES: &[(&str, Mnemonic)] = &[
    ("add", Mnemonic::Three(ThreeOp::Add)),
    ("and", Mnemonic::Three(ThreeOp::And)),
    ("addw", Mnemonic::Three(ThreeOp::Addw)),
    ("addi", Mnemonic::Immediate(ImmediateOp::Addi)),
    ("andi", Mnemonic::Immediate(ImmediateOp::Andi)),
    ("addiw", Mnemonic::Immediate(ImmediateOp::Addiw)),
    ("auipcc", Mnemonic::Upper(UpperOp::AuiPcc)),
    ("amoswap.c", Mnemonic::Swap),
];

const B_NAMES: &[(&str, Mnemonic)] = &[
    ("beq", Mnemonic::Branch(BranchOp::Beq)),
    ("bne", Mnemonic::Branch(BranchOp::Bne)),
    ("blt", Mnemonic::Branch(BranchOp::Blt)),
    ("bge", Mnemonic::Branch(BranchOp::Bge)),
    ("bltu", Mnemonic::Branch(BranchOp::Bltu)),
    ("bgeu", Mnemonic::Branch(BranchOp::Bgeu)),
];

const C_NAMES: &[(&str, Mnemonic)] = &[
    ("csetaddr", Mnemonic::Three(ThreeOp::CSetAddr)),
    ("cincoffset", Mnemonic::Three(ThreeOp::CIncOffset)),
    ("csetbounds", Mnemonic::Three(ThreeOp::CSetBounds)),
    ("csetboundsexact", Mnemonic::Three(ThreeOp::CSetBoundsExact)),
    ("candperm", Mnemonic::Three(ThreeOp::CAndPerm)),
    ("csetflags", Mnemonic::Three(ThreeOp::CSetFlags)),
    ("csethigh", Mnemonic::Three(ThreeOp::CSetHigh)),
    ("cseal", Mnemonic::Three(ThreeOp::CSeal)),
    ("cunseal", Mnemonic::Three(ThreeOp::CUnseal)),
    ("cbuildcap", Mnemonic::Three(ThreeOp::CBuildCap)),
    ("ctestsubset", Mnemonic::Three(ThreeOp::CTestSubset)),
    ("csetequalexact", Mnemonic::Three(ThreeOp::CSetEqualExact)),
    ("cmove", Mnemonic::Two(TwoOp::CMove)),
    ("ccleartag", Mnemonic::Two(TwoOp::CClearTag)),
    ("csealentry", Mnemonic::Two(TwoOp::CSealEntry)),
    ("cgetperm", Mnemonic::Two(TwoOp::CGetPerm)),
    ("cgettype", Mnemonic::Two(TwoOp::CGetType)),
    ("cgetbase", Mnemonic::Two(TwoOp::CGetBase)),
    ("cgetlen", Mnemonic::Two(TwoOp::CGetLen)),
    ("cgettag", Mnemonic::Two(TwoOp::CGetTag)),
    ("cgetsealed", Mnemonic::Two(TwoOp::CGetSealed)),
    ("cgetoffset", Mnemonic::Two(TwoOp::CGetOffset)),
    ("cgetflags", Mnemonic::Two(TwoOp::CGetFlags)),
    ("cgetaddr", Mnemonic::Two(TwoOp::CGetAddr)),
    ("cgethigh", Mnemonic::Two(TwoOp::CGetHigh)),
    ("crrl", Mnemonic::Two(TwoOp::Crrl)),
    ("cram", Mnemonic::Two(TwoOp::Cram)),
    (
        "cincoffsetimm",
        Mnemonic::Immediate(ImmediateOp::CIncOffsetImm),
    ),
    ("csetboundsimm", Mnemonic::SetBoundsImm),
    ("cjalr", Mnemonic::Load(LoadOp::CJalr)),
    ("cjal", Mnemonic::Jump),
    ("cinvoke", Mnemonic::Invoke),
];

const E_NAMES: &[(&str, Mnemonic)] = &[("ecall", Mnemonic::Alone)];

const L_NAMES: &[(&str, Mnemonic)] = &[
    ("lui", Mnemonic::Upper(UpperOp::Lui)),
    ("lb", Mnemonic::Load(LoadOp::Lb)),
    ("lbu", Mnemonic::Load(LoadOp::Lbu)),
    ("lh", Mnemonic::Load(LoadOp::Lh)),
    ("lhu", Mnemonic::Load(LoadOp::Lhu)),
    ("lw", Mnemonic::Load(LoadOp::Lw)),
    ("lwu", Mnemonic::Load(LoadOp::Lwu)),
    ("ld", Mnemonic::Load(LoadOp::Ld)),
    ("lc", Mnemonic::Load(LoadOp::Lc)),
];

const O_NAMES: &[(&str, Mnemonic)] = &[
    ("or", Mnemonic::Three(ThreeOp::Or)),
    ("ori", Mnemonic::Immediate(ImmediateOp::Ori)),
];

const S_NAMES: &[(&str, Mnemonic)] = &[
    ("sub", Mnemonic::Three(ThreeOp::Sub)),
    ("sll", Mnemonic::Three(ThreeOp::Sll)),
    ("slt", Mnemonic::Three(ThreeOp::Slt)),
    ("sltu", Mnemonic::Three(ThreeOp::Sltu)),
    ("srl", Mnemonic::Three(ThreeOp::Srl)),
    ("sra", Mnemonic::Three(ThreeOp::Sra)),
    ("subw", Mnemonic::Three(ThreeOp::Subw)),
    ("sllw", Mnemonic::Three(ThreeOp::Sllw)),
    ("srlw", Mnemonic::Three(ThreeOp::Srlw)),
    ("sraw", Mnemonic::Three(ThreeOp::Sraw)),
    ("slti", Mnemonic::Immediate(ImmediateOp::Slti)),
    ("sltiu", Mnemonic::Immediate(ImmediateOp::Sltiu)),
    ("slli", Mnemonic::Shift(ShiftOp::Slli)),
    ("srli", Mnemonic::Shift(ShiftOp::Srli)),
    ("srai", Mnemonic::Shift(ShiftOp::Srai)),
    ("slliw", Mnemonic::WordShift(WordShiftOp::Slliw)),
    ("srliw", Mnemonic::WordShift(WordShiftOp::Srliw)),
    ("sraiw", Mnemonic::WordShift(WordShiftOp::Sraiw)),
    ("sb", Mnemonic::Store(StoreOp::Sb)),
    ("sh", Mnemonic::Store(StoreOp::Sh)),
    ("sw", Mnemonic::Store(StoreOp::Sw)),
    ("sd", Mnemonic::Store(StoreOp::Sd)),
    ("sc", Mnemonic::Store(StoreOp::Sc)),
];

const X_NAMES: &[(&str, Mnemonic)] = &[
    ("xor", Mnemonic::Three(ThreeOp::Xor)),
    ("xori", Mnemonic::Immediate(ImmediateOp::Xori)),
];

/// All names.
const NAMES: &[&[(&str, Mnemonic)]] = &[
    A_NAMES, B_NAMES, C_NAMES, E_NAMES, L_NAMES, O_NAMES, S_NAMES, X_NAMES,
];

/// The instructions whose names begin with this letter.
fn names_from(letter: u8) -> &'static [(&'static str, Mnemonic)]
    ensures { rows_of result.now ≡ names_from letter }
{
    match letter {
        b'a' => A_NAMES,
        b'b' => B_NAMES,
        b'c' => C_NAMES,
        b'e' => E_NAMES,
        b'l' => L_NAMES,
        b'o' => O_NAMES,
        b's' => S_NAMES,
        b'x' => X_NAMES,
        _ => &[],
    }
}

/// The instruction that a token names.
pub fn mnemonic_of(token: &[u8]) -> Option<Mnemonic>
    ensures { result ≡ mnemonic_of token.now }
{
    match token {
        [letter, ..] => found_at(names_from(*letter), token),
        [] => None,
    }
}

/// Whether a token names an instruction.
pub fn is_instruction(token: &[u8]) -> bool
    ensures { result ≡ is_instruction token.now }
{
    mnemonic_of(token).is_some()
}

/// The name that these rows have for an instruction.
fn name_among(rows: &'static [(&'static str, Mnemonic)], mnemonic: Mnemonic) -> Option<&'static str>
    ensures { option_map (λ name. name.now) result ≡ name_among (rows_of rows.now) mnemonic }
{
    for (name, value) in rows {
        if *value == mnemonic {
            return Some(*name);
        }
    }
    None
}

/// The name that the first of these tables with one has for an instruction.
fn name_in(
    tables: &'static [&'static [(&'static str, Mnemonic)]],
    mnemonic: Mnemonic,
) -> &'static str
    ensures { result.now ≡ name_in (map (λ rows. rows_of rows.now) tables.now) mnemonic }
{
    for rows in tables {
        if let Some(name) = name_among(*rows, mnemonic) {
            return name;
        }
    }
    ""
}

/// The name of an instruction.
pub fn name_of(mnemonic: Mnemonic) -> &'static str
    ensures { result.now ≡ name_of mnemonic }
{
    name_in(NAMES, mnemonic)
}
