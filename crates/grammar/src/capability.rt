//! The capabilities of a listing.
#![tactic(auto, using(crate::proofs::Rulesets::count), unfolding(crate::proofs::Unfold::capabilities))]

ghost use Rattle.std.specs.Prelude.{◌≡◌, ◌<◌, ◌^◌};
ghost use Rattle.grammar.specs.Tokens.{texts};
ghost use Rattle.grammar.specs.Capability.{
  cap_operands_of,
  optional_type,
  cap_tokens,
  cap_parts_of,
  capability_of,
};

use crate::fault::ListingFaultKind;
use crate::numerals::{at_most, number_of};
use crate::operands::{LawfulType, TypeOperand, type_in_range, type_operand_of};
use crate::permissions::permissions_of;
use crate::tokens::token_at;
use cap_ops::Cap;
use cheri_model::Perms;

/// The operands of a capability, of which the numbers may be outside their ranges.
#[derive(Clone, Copy)]
pub struct CapOperands {
    pub base: Option<u128>,
    pub len: Option<u128>,
    pub addr: Option<u128>,
    pub perms: Perms,
    pub otype: TypeOperand,
}

/// The parts of a capability, each in its range.
#[derive(Clone, Copy)]
pub struct CapParts {
    pub base: u64,
    pub len: u128,
    pub addr: u64,
    pub perms: Perms,
    pub otype: LawfulType,
}

/// BASE, LEN, ADDR and PERMS, from the token at `place` on, by their shapes. Fails with `Operand`.
pub fn cap_operands_of(
    tokens: &[&[u8]],
    place: usize,
    otype: TypeOperand,
) -> Result<CapOperands, ListingFaultKind>
    requires { place < 2 ^ 32 }
    ensures { result ≡ cap_operands_of (texts tokens.now) place otype }
{
    Ok(CapOperands {
        base: number_of(token_at(tokens, place))?,
        len: number_of(token_at(tokens, place + 1))?,
        addr: number_of(token_at(tokens, place + 2))?,
        perms: permissions_of(token_at(tokens, place + 3))?,
        otype,
    })
}

/// TYPE, which may be the last token, at `place`, or left out.
fn optional_type(tokens: &[&[u8]], place: usize) -> Result<TypeOperand, ListingFaultKind>
    requires { place < 2 ^ 32 }
    ensures { result ≡ optional_type (texts tokens.now) place }
{
    if tokens.len() == place + 1 {
        type_operand_of(token_at(tokens, place))
    } else if tokens.len() == place {
        Ok(TypeOperand::Unsealed)
    } else {
        Err(ListingFaultKind::Operand)
    }
}

/// BASE, LEN, ADDR, PERMS and perhaps TYPE, from the token at `place` to the last one, by their
/// shapes. Fails with `Operand`.
pub fn cap_tokens(tokens: &[&[u8]], place: usize) -> Result<CapOperands, ListingFaultKind>
    requires { place < 2 ^ 16 }
    ensures { result ≡ cap_tokens (texts tokens.now) place }
{
    let otype = optional_type(tokens, place + 4)?;
    cap_operands_of(tokens, place, otype)
}

/// The operands of a capability in their ranges. Fails with `Range`.
pub fn cap_parts_of(operands: CapOperands) -> Result<CapParts, ListingFaultKind>
    ensures { result ≡ cap_parts_of operands }
{
    let base = at_most(0xFFFF_FFFF_FFFF_FFFF, operands.base)? as u64;
    let len = at_most(0x1_0000_0000_0000_0000, operands.len)?;
    let addr = at_most(0xFFFF_FFFF_FFFF_FFFF, operands.addr)? as u64;
    let otype = type_in_range(operands.otype)?;
    Ok(CapParts {
        base,
        len,
        addr,
        perms: operands.perms,
        otype,
    })
}

impl CapParts {
    /// The tagged capability of these parts. There is none where base and length exceed 2^64, where
    /// rounding would change a bound, or where the address is outside the representable region.
    pub fn capability(self) -> Result<Cap, ListingFaultKind>
        ensures { result ≡ capability_of self }
    {
        let otype = self.otype.otype();
        match Cap::make_sealed(self.base, self.len, self.addr, self.perms, otype) {
            Ok(cap) => Ok(cap),
            Err(_) => Err(ListingFaultKind::Capability),
        }
    }
}
