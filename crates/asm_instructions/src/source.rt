//! How the value of an instruction's operand is found, and what the instruction is with it.
#![tactic(auto, unfolding(crate::proofs::Unfold::sources))]

ghost use Rattle.std.specs.Prelude.{◌≡◌};
ghost use Rattle.asm_expansions.specs.Expansions.{expansion_of, instrs_of};
ghost use Rattle.asm_instructions.specs.Sources.{
  Expands,
  expansion_for,
  or_range,
  relocated_source,
  source_of,
  symbol_source,
};

use asm_expansions::{Expansion, Operation};
use asm_immediates::{Immediate, immediate_of, immediate_value};
use asm_names::Relocation;
use asm_statements::{Operand, Role};
use asm_tokens::AsmFaultKind;

/// How the value of an instruction's operand is found.
#[derive(Clone, Copy, Debug, PartialEq, Eq)]
pub enum Source {
    /// It is known while the file is read.
    Constant,
    /// It is a number.
    Number,
    /// It is a number, or the address of a place.
    Address,
    /// It is the distance from the instruction to a place.
    Distance,
    /// It is the distance from the instruction to a symbol's entry in the capability table.
    Entry,
    /// It is the distance of another instruction, which a label names.
    Named,
    /// It is the number of the instruction that a branch goes to.
    Target,
}

/// The source of an immediate with an operator of relocation. Fails with `Expression` where the
/// operator can't be.
fn relocated_source(immediate: Immediate, relocation: Relocation) -> Result<Source, AsmFaultKind>
    ensures { result ≡ relocated_source immediate relocation }
{
    match (immediate, relocation) {
        (Immediate::Upper, Relocation::Hi) => Ok(Source::Address),
        (Immediate::Signed, Relocation::Lo) => Ok(Source::Address),
        (Immediate::UpperOfPcc, Relocation::PcrelHi) => Ok(Source::Distance),
        (Immediate::UpperOfPcc, Relocation::CaptabPcrelHi) => Ok(Source::Entry),
        (Immediate::Signed, Relocation::PcrelLo) => Ok(Source::Named),
        _ => Err(AsmFaultKind::Expression),
    }
}

/// The source of what a pair of instructions reaches.
fn symbol_source(operation: Operation) -> Source
    ensures { result ≡ symbol_source operation }
{
    match operation {
        Operation::Clgc(_) => Source::Entry,
        _ => Source::Distance,
    }
}

/// How the value of an operation's operand is found. Fails with `Expression` where its operator of
/// relocation can't be.
pub fn source_of(operation: Operation, operand: Operand) -> Result<Source, AsmFaultKind>
    ensures { result ≡ source_of operation operand }
{
    match operand.role {
        Role::Immediate => match operand.relocation {
            Some(relocation) => relocated_source(immediate_of(operation), relocation),
            None => Ok(Source::Number),
        },
        Role::Target => Ok(Source::Target),
        Role::Symbol => Ok(symbol_source(operation)),
        _ => Ok(Source::Constant),
    }
}

/// What an operation is with its value. Fails with `Range` where it is outside the instruction's
/// range.
fn expanded(operation: Operation, value: i64) -> Result<Expansion, AsmFaultKind>
    ensures { Expands result (or_range (expansion_of operation value)) }
{
    match operation.expand(value) {
        Some(expansion) => Ok(expansion),
        None => Err(AsmFaultKind::Range),
    }
}

/// What an operation is with the number that its source gives. Fails with `Range` where the value
/// is outside the instruction's range.
pub fn expansion_for(
    operation: &Operation,
    relocation: Option<Relocation>,
    number: u64,
) -> Result<Expansion, AsmFaultKind>
    ensures { Expands result (expansion_for operation.now relocation number) }
{
    let immediate = immediate_of(*operation);
    let value = immediate_value(immediate, relocation, number.cast_signed())?;
    expanded(*operation, value)
}
