//! The operands of a listing's lines.
#![tactic(auto, using(crate::proofs::Rulesets::lawful), unfolding(crate::proofs::Unfold::operands))]

ghost use Rattle.std.specs.Prelude.{◌≡◌, ◌≢◌, ◌<◌, ◌≤◌, ◌^◌, ◌==◌, IfOk, position};
ghost use Rattle.cap_model.specs.values.Capability.{IsLawfulType};
ghost use Rattle.grammar.specs.Operands.{
  register_of,
  register_numbered,
  immediate_of,
  immediate_of_12_bits,
  immediate_up_to,
  before_bracket,
  from_bracket,
  memory_operand_from,
  memory_operand_of,
  type_operand_of,
  type_in_range,
};

use crate::fault::ListingFaultKind;
use crate::numerals::{at_most, number_of};
use cheri_model::{LAST_SEALABLE_TYPE, MAX_IMMEDIATE, OType, Reg};
use std::marker::Model;

/// An immediate as a token writes it. Its size is `None` at or above 2^128.
#[derive(Clone, Copy)]
pub struct Immediate {
    pub negative: bool,
    pub size: Option<u128>,
}

/// A register and an offset from its address.
#[derive(Clone, Copy)]
pub struct MemoryOperand {
    pub imm: Immediate,
    pub c1: Reg,
}

/// An object type as a line writes it: unsealed where no token does.
#[derive(Clone, Copy)]
pub enum TypeOperand {
    Unsealed,
    Sentry,
    Number(Option<u128>),
}

/// An object type that a tagged capability can have: neither of the two that are reserved.
#[derive(Clone, Copy)]
pub struct LawfulType {
    otype: OType,
}

impl Model for LawfulType {
    ghost use Rattle.std.specs.Prelude.{ℕ};
    ghost use Rattle.cap_model.specs.values.Capability.{IsLawfulType};

    ghost Value = { ℕ };

    ghost view = { λ lawful. lawful.otype };

    ghost invariant = { λ lawful. IsLawfulType lawful.otype };

    ghost inverse = { λ number. record { otype = number } };
}

impl LawfulType {
    fn new(otype: OType) -> LawfulType
        requires { IsLawfulType otype }
        ensures { result ≡ otype }
    {
        LawfulType { otype }
    }

    /// The object type.
    pub fn otype(self) -> OType
        ensures value { result ≡ self }
        ensures lawful { IsLawfulType self }
    {
        self.otype
    }
}

/// The register of this number.
fn register_numbered(number: u8) -> Result<Reg, ListingFaultKind>
    ensures { result ≡ register_numbered number }
{
    if number < 32 {
        Ok(Reg::new(number))
    } else {
        Err(ListingFaultKind::Operand)
    }
}

/// The register that a token names, `c0` to `c31` without leading zeros. Fails with `Operand`.
pub fn register_of(token: &[u8]) -> Result<Reg, ListingFaultKind>
    ensures { result ≡ register_of token.now }
{
    match token {
        [b'c', ones @ b'0'..=b'9'] => register_numbered(*ones - b'0'),
        [b'c', tens @ b'1'..=b'9', ones @ b'0'..=b'9'] => {
            register_numbered(10 * (*tens - b'0') + (*ones - b'0'))
        }
        _ => Err(ListingFaultKind::Operand),
    }
}

/// The immediate that a token writes. Fails with `Operand`.
pub fn immediate_of(token: &[u8]) -> Result<Immediate, ListingFaultKind>
    ensures { result ≡ immediate_of token.now }
{
    match token {
        [b'-', digits @ ..] => Ok(Immediate {
            negative: true,
            size: number_of(digits)?,
        }),
        _ => Ok(Immediate {
            negative: false,
            size: number_of(token)?,
        }),
    }
}

/// An immediate in the range of 12 bits, from -2,048 to 2,047. Fails with `Range`.
pub fn immediate_of_12_bits(imm: Immediate) -> Result<i16, ListingFaultKind>
    ensures { result ≡ immediate_of_12_bits imm }
{
    if imm.negative {
        Ok(-(at_most(u128::from(MAX_IMMEDIATE) + 1, imm.size)? as i16))
    } else {
        Ok(at_most(u128::from(MAX_IMMEDIATE), imm.size)? as i16)
    }
}

/// An immediate from 0 to a limit. Fails with `Range`.
pub fn immediate_up_to(limit: u128, imm: Immediate) -> Result<u128, ListingFaultKind>
    ensures value { result ≡ immediate_up_to limit imm }
    ensures bound { IfOk result (λ n. n ≤ limit) }
{
    if imm.negative {
        at_most(0, imm.size)
    } else {
        at_most(limit, imm.size)
    }
}

/// Where the first `(` of a token is.
fn bracket(token: &[u8]) -> Option<usize>
    ensures { result ≡ position (λ b. b == 0x28) token.now }
{
    token.iter().position(|byte| *byte == b'(')
}

/// A register in brackets, after an immediate.
fn memory_operand_from(imm: Immediate, part: &[u8]) -> Result<MemoryOperand, ListingFaultKind>
    ensures { result ≡ memory_operand_from imm part.now }
{
    match part {
        [b'(', reg @ .., b')'] => Ok(MemoryOperand {
            imm,
            c1: register_of(reg)?,
        }),
        _ => Err(ListingFaultKind::Operand),
    }
}

/// The memory operand that a token writes: an immediate and a register in brackets. Fails with
/// `Operand`.
#[tactic(auto, using(crate::proofs::Rulesets::bracket), unfolding(crate::proofs::Unfold::memory))]
pub fn memory_operand_of(token: &[u8]) -> Result<MemoryOperand, ListingFaultKind>
    ensures { result ≡ memory_operand_of token.now }
{
    let (imm, part) = match bracket(token) {
        Some(at) => (&token[..at], &token[at..]),
        None => (token, &token[token.len()..]),
    };
    let imm = immediate_of(imm)?;
    memory_operand_from(imm, part)
}

/// The object type that a token writes: `sentry` or a number. Fails with `Operand`.
pub fn type_operand_of(token: &[u8]) -> Result<TypeOperand, ListingFaultKind>
    ensures { result ≡ type_operand_of token.now }
{
    if token == b"sentry".as_slice() {
        return Ok(TypeOperand::Sentry);
    }
    Ok(TypeOperand::Number(number_of(token)?))
}

/// An object type in its range: below the reserved types, or a sentry, or unsealed. Fails with
/// `Range`.
pub fn type_in_range(operand: TypeOperand) -> Result<LawfulType, ListingFaultKind>
    ensures { result ≡ type_in_range operand }
{
    match operand {
        TypeOperand::Unsealed => Ok(LawfulType::new(OType::unsealed())),
        TypeOperand::Sentry => Ok(LawfulType::new(OType::sentry())),
        TypeOperand::Number(number) => {
            let number = at_most(u128::from(LAST_SEALABLE_TYPE), number)? as u32;
            Ok(LawfulType::new(OType::new(number)))
        }
    }
}
