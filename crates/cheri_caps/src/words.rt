//! Words of 128 bits, whether or not a capability has them.

ghost use Rattle.std.specs.Prelude.{◌≡◌, ◌↔◌, IsTrue};
ghost use Rattle.cap_model.specs.results.EditedWords.{word_of_halves};
ghost use Rattle.cap_model.specs.words.Fields.{
  word_perms,
  word_otype,
  word_flag,
  word_reserved,
  word_ie,
  word_exponent,
};
ghost use Rattle.cap_model.specs.words.RawBounds.{raw_base, raw_top};
ghost use Rattle.cap_ops.specs.Tagged.{is_encoding, value_from};
ghost use Rattle.cheri_caps.specs.Structs.{bounds_with};

use crate::structs::{CheriBounds, CheriFields};
use crate::values::halves;
use cap_bounds::{decode, fields, representable};
use cap_ops::Cap;

/// The bounds that the word is read with. The top, below 2^65, may lie below the base where no
/// instruction makes the word.
#[unsafe(no_mangle)]
pub extern "C" fn cheri_caps_bounds(upper: u64, addr: u64) -> CheriBounds
    ensures { result ≡ bounds_with (raw_base upper addr) (raw_top upper addr) }
{
    let (base, top) = decode(upper, addr);
    let (top, top_high) = halves(top);
    CheriBounds {
        base,
        top,
        top_high,
    }
}

/// The fields of the word with this upper half.
#[unsafe(no_mangle)]
pub extern "C" fn cheri_caps_fields(upper: u64) -> CheriFields
    ensures perms { result.perms ≡ word_perms upper }
    ensures otype { result.otype ≡ word_otype upper }
    ensures flag { result.flag ≡ word_flag upper }
    ensures reserved { result.reserved ≡ word_reserved upper }
    ensures ie { result.ie ≡ word_ie upper }
    ensures e { result.e ≡ word_exponent upper }
{
    let parts = fields(upper);
    CheriFields {
        perms: parts.perms,
        otype: parts.otype,
        flag: parts.flag,
        reserved: parts.reserved,
        ie: parts.ie,
        e: parts.e,
    }
}

/// Whether the bounds are the same at both addresses.
#[unsafe(no_mangle)]
pub extern "C" fn cheri_caps_is_representable(upper: u64, addr: u64, new_addr: u64) -> bool
    ensures { IsTrue result ↔ ((raw_base upper new_addr ≡ raw_base upper addr) × (raw_top upper
        new_addr ≡ raw_top upper addr)) }
{
    representable(upper, addr, new_addr)
}

/// Whether a tagged capability can have this word.
#[unsafe(no_mangle)]
pub extern "C" fn cheri_caps_is_capability(upper: u64, addr: u64) -> bool
    ensures { result ≡ is_encoding (word_of_halves upper addr) }
{
    Cap::from_tagged(true, upper, addr).tag()
}
