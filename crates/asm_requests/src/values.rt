//! The values of capability registers: a symbol's capability, the table, or one that is written
//! out.
#![tactic(auto, unfolding(crate::proofs::Unfold::values))]

ghost use Rattle.std.specs.Prelude.{◌≡◌, option_map};
ghost use Rattle.asm_requests.specs.Values.{
  typed,
  operands_of,
  literal_of,
  symbol_of,
  held_parts,
  held_of,
};

use crate::numbers::number_up_to;
use grammar::capability::{CapOperands, CapParts, cap_parts_of};
use grammar::operands::{TypeOperand, type_operand_of};
use grammar::permissions::permissions_of;
use text_numbers::number_of;
use text_parts::parted;

/// What a capability register is to hold.
#[derive(Clone, Copy)]
pub enum Held<'a> {
    /// The capability of a symbol, moved by so many bytes.
    Symbol(&'a [u8], u64),
    /// The capability table.
    Table,
    /// The capability of these parts.
    Written(CapParts),
}

/// PERMS, or PERMS and TYPE, as listings have them.
fn typed(text: &[u8]) -> Option<(&[u8], TypeOperand)>
    ensures { option_map (λ t. (t.0.now, t.1)) result ≡ typed text.now }
{
    let Some((perms, otype)) = parted(b':', text) else {
        return Some((text, TypeOperand::Unsealed));
    };
    match type_operand_of(otype) {
        Ok(otype) => Some((perms, otype)),
        Err(_) => None,
    }
}

/// The operands of a capability by their shapes.
fn operands_of(
    base: &[u8],
    len: &[u8],
    addr: &[u8],
    perms: &[u8],
    otype: TypeOperand,
) -> Option<CapOperands>
    ensures { result ≡ operands_of base.now len.now addr.now perms.now otype }
{
    let (base, len, addr) = (number_of(base)?, number_of(len)?, number_of(addr)?);
    match permissions_of(perms) {
        Ok(perms) => Some(CapOperands {
            base,
            len,
            addr,
            perms,
            otype,
        }),
        Err(_) => None,
    }
}

/// The parts of a capability that is written out: `BASE:LEN:ADDR:PERMS`, or with `:TYPE`.
fn literal_of(text: &[u8]) -> Option<CapParts>
    ensures { result ≡ literal_of text.now }
{
    let (base, rest) = parted(b':', text)?;
    let (len, rest) = parted(b':', rest)?;
    let (addr, rest) = parted(b':', rest)?;
    let (perms, otype) = typed(rest)?;
    let operands = operands_of(base, len, addr, perms, otype)?;
    match cap_parts_of(operands) {
        Ok(parts) => Some(parts),
        Err(_) => None,
    }
}

/// A symbol, or a symbol and a number of bytes.
fn symbol_of<'a>(text: &'a [u8]) -> Option<Held<'a>>
    ensures { option_map held_parts result ≡ symbol_of text.now }
{
    let Some((name, offset)) = parted(b'+', text) else {
        return Some(Held::Symbol(text, 0));
    };
    let offset = number_up_to(0xFFFF_FFFF_FFFF_FFFF, offset)? as u64;
    Some(Held::Symbol(name, offset))
}

/// What a capability register is to hold.
pub(crate) fn held_of<'a>(text: &'a [u8]) -> Option<Held<'a>>
    ensures { option_map held_parts result ≡ held_of text.now }
{
    if let [b'c', b'a', b'p', b':', literal @ ..] = text {
        return Some(Held::Written(literal_of(literal)?));
    }
    if text == b"@table".as_slice() {
        return Some(Held::Table);
    }
    symbol_of(text)
}
