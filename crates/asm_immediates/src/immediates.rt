//! The values of operands, where an operator of relocation may be before them.
#![tactic(auto, unfolding(crate::specs::Immediates::immediate_value))]

ghost use Rattle.std.specs.Prelude.{◌≡◌};
ghost use Rattle.asm_immediates.specs.Immediates.{immediate_of, upper, immediate_value};

use asm_expansions::{Operation, high_field, low};
use asm_names::Relocation;
use asm_tokens::AsmFaultKind;
use cheri_model::form::UpperOp;

/// What an operation's value is, by the operators of relocation that it may have.
#[derive(Clone, Copy, Debug, PartialEq, Eq)]
pub enum Immediate {
    /// The 20 bits of `lui`.
    Upper,
    /// The 20 bits of `auipcc`.
    UpperOfPcc,
    /// An immediate, or an offset, of 12 bits with a sign.
    Signed,
    /// Another one.
    Other,
}

/// What an operation's value is.
pub fn immediate_of(operation: Operation) -> Immediate
    ensures { result ≡ immediate_of operation }
{
    match operation {
        Operation::Upper(UpperOp::Lui, _) => Immediate::Upper,
        Operation::Upper(UpperOp::AuiPcc, _) => Immediate::UpperOfPcc,
        Operation::Immediate(_, _, _) => Immediate::Signed,
        Operation::Load(_, _, _) => Immediate::Signed,
        Operation::Store(_, _, _) => Immediate::Signed,
        _ => Immediate::Other,
    }
}

/// The upper part of a number. Fails with `Range` where it has not 20 bits with a sign.
fn upper(number: i64) -> Result<i64, AsmFaultKind>
    ensures { result ≡ upper number }
{
    match high_field(number) {
        Some(field) => Ok(i64::from(field)),
        None => Err(AsmFaultKind::Range),
    }
}

/// The value of an operand: the number itself, or what an operator of relocation makes of it. The
/// number of `%pcrel_hi` and `%captab_pcrel_hi` is the distance from their instruction to what it
/// reaches, and that of `%pcrel_lo` the distance of the instruction that it names. Fails with
/// `Expression` where the operator can't be, and with `Range`.
pub fn immediate_value(
    immediate: Immediate,
    relocation: Option<Relocation>,
    number: i64,
) -> Result<i64, AsmFaultKind>
    ensures { result ≡ immediate_value immediate relocation number }
{
    let Some(relocation) = relocation else {
        return Ok(number);
    };
    match (immediate, relocation) {
        (Immediate::Upper, Relocation::Hi) => upper(number),
        (Immediate::UpperOfPcc, Relocation::PcrelHi) => upper(number),
        (Immediate::UpperOfPcc, Relocation::CaptabPcrelHi) => upper(number),
        (Immediate::Signed, Relocation::Lo) => Ok(i64::from(low(number))),
        (Immediate::Signed, Relocation::PcrelLo) => Ok(i64::from(low(number))),
        _ => Err(AsmFaultKind::Expression),
    }
}
