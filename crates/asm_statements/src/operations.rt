//! What instructions do, with their registers.
#![tactic(auto, unfolding(crate::proofs::Unfold::operations))]

ghost use Rattle.std.specs.Prelude.{◌≡◌, ◌<◌};
ghost use Rattle.asm_statements.specs.Operations.{by_count, link, load, operation_of, through};

use crate::draft::Registers;
use asm_expansions::{Operation, PseudoThreeOp};
use asm_mnemonics::Mnemonic;
use cheri_model::Reg;
use cheri_model::form::{ImmediateOp, LoadOp, StoreOp, ThreeOp, UpperOp};

/// One operation with three registers, and another with fewer.
fn by_count(registers: Registers, fewer: Operation, three: Operation) -> Operation
    ensures { result ≡ by_count registers fewer three }
{
    if registers.count < 3 { fewer } else { three }
}

/// A jump through a register. Its link goes to the register before it, if there are two, else to
/// the other one.
fn through(registers: Registers, other: Reg) -> Operation
    ensures { result ≡ through registers other }
{
    if registers.count < 2 {
        Operation::Load(LoadOp::CJalr, other, registers.first)
    } else {
        Operation::Load(LoadOp::CJalr, registers.first, registers.second)
    }
}

/// The register that is written, or the other one where none is.
fn link(registers: Registers, other: Reg) -> Reg
    ensures { result ≡ link registers other }
{
    if registers.count < 1 {
        other
    } else {
        registers.first
    }
}

/// A load from memory, or from a symbol.
fn load(registers: Registers, op: LoadOp) -> Operation
    ensures { result ≡ load registers op }
{
    if registers.count < 2 {
        Operation::LoadSymbol(op, registers.first)
    } else {
        Operation::Load(op, registers.first, registers.second)
    }
}

/// What an instruction does, by its name and its registers.
pub(crate) fn operation_of(mnemonic: Mnemonic, registers: Registers) -> Operation
    ensures { result ≡ operation_of mnemonic registers }
{
    let (a, b, c) = (registers.first, registers.second, registers.third);
    match mnemonic {
        Mnemonic::Three(op) => Operation::Three(op, a, b, c),
        Mnemonic::ThreeOrImmediate(op, other) => by_count(
            registers,
            Operation::Immediate(other, a, b),
            Operation::Three(op, a, b, c),
        ),
        Mnemonic::ThreeOrShift(op, other) => by_count(
            registers,
            Operation::Shift(other, a, b),
            Operation::Three(op, a, b, c),
        ),
        Mnemonic::ThreeOrWordShift(op, other) => by_count(
            registers,
            Operation::WordShift(other, a, b),
            Operation::Three(op, a, b, c),
        ),
        Mnemonic::Immediate(op) => Operation::Immediate(op, a, b),
        Mnemonic::Shift(op) => Operation::Shift(op, a, b),
        Mnemonic::WordShift(op) => Operation::WordShift(op, a, b),
        Mnemonic::Lui => Operation::Upper(UpperOp::Lui, a),
        Mnemonic::Auipcc => Operation::Upper(UpperOp::AuiPcc, a),
        Mnemonic::Load(op) => load(registers, op),
        Mnemonic::LoadAlone(op) => Operation::Load(op, a, b),
        Mnemonic::Store(op) => Operation::Store(op, a, b),
        Mnemonic::StoreAlone(op) => Operation::Store(op, a, b),
        Mnemonic::LoadCapability => Operation::Load(LoadOp::Lc, a, b),
        Mnemonic::LoadCapabilityAlone => Operation::Load(LoadOp::Lc, a, b),
        Mnemonic::StoreCapability => Operation::Store(StoreOp::Sc, a, b),
        Mnemonic::StoreCapabilityAlone => Operation::Store(StoreOp::Sc, a, b),
        Mnemonic::Swap => Operation::Swap(a, b, c),
        Mnemonic::Branch(op) => Operation::Branch(op, a, b),
        Mnemonic::PseudoBranch(op) => Operation::PseudoBranch(op, a, b),
        Mnemonic::ZeroBranch(op) => Operation::ZeroBranch(op, a),
        Mnemonic::Jump => Operation::Jump(Reg::new(0)),
        Mnemonic::JumpAndLink => Operation::Jump(link(registers, Reg::new(1))),
        Mnemonic::JumpRegisterAndLink => through(registers, Reg::new(1)),
        Mnemonic::JumpRegisterPlain => Operation::Load(LoadOp::CJalr, a, b),
        Mnemonic::JumpRegister => Operation::Load(LoadOp::CJalr, Reg::new(0), a),
        Mnemonic::Return => Operation::Load(LoadOp::CJalr, Reg::new(0), Reg::new(1)),
        Mnemonic::Alone => Operation::Alone,
        Mnemonic::Unimp => Operation::Unimp,
        Mnemonic::Nop => Operation::Nop,
        Mnemonic::Fence => Operation::Nop,
        Mnemonic::PseudoTwo(op) => Operation::PseudoTwo(op, a, b),
        Mnemonic::PseudoThree(op) => Operation::PseudoThree(op, a, b, c),
        Mnemonic::Li => Operation::Li(a),
        Mnemonic::Inspect(op) => Operation::Two(op, a, b),
        Mnemonic::Modify(op) => Operation::Two(op, a, b),
        Mnemonic::Round(op) => Operation::Two(op, a, b),
        Mnemonic::ModifyBy(op) => Operation::Three(op, a, b, c),
        Mnemonic::IncOffset => by_count(
            registers,
            Operation::Immediate(ImmediateOp::CIncOffsetImm, a, b),
            Operation::Three(ThreeOp::CIncOffset, a, b, c),
        ),
        Mnemonic::IncOffsetImm => Operation::Immediate(ImmediateOp::CIncOffsetImm, a, b),
        Mnemonic::SetBounds => by_count(
            registers,
            Operation::SetBoundsImm(a, b),
            Operation::Three(ThreeOp::CSetBounds, a, b, c),
        ),
        Mnemonic::SetBoundsImm => Operation::SetBoundsImm(a, b),
        Mnemonic::ModifyTogether(op) => Operation::Three(op, a, b, c),
        Mnemonic::Compare(op) => Operation::Three(op, a, b, c),
        Mnemonic::Csub => Operation::PseudoThree(PseudoThreeOp::CSub, a, b, c),
        Mnemonic::Invoke => Operation::Invoke(a, b),
        Mnemonic::Call => Operation::Call(link(registers, Reg::new(1))),
        Mnemonic::Tail => Operation::Tail,
        Mnemonic::Cllc => Operation::Cllc(a),
        Mnemonic::Clgc => Operation::Clgc(a),
        Mnemonic::La => Operation::La(a),
    }
}
