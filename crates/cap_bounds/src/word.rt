//! The fields of a 128-bit word, taken out of its upper half (CHERI ISA v9, "capability encoding").
#![tactic(auto, unfolding(crate::proofs::Unfold::fields))]

ghost use Rattle.std.specs.Prelude.{◌≡◌, ◌≤◌, ◌<◌, ◌^◌};
ghost use Rattle.cap_model.specs.words.Fields.{
  with_null_fields,
  word_perms,
  word_otype,
  word_flag,
  word_reserved,
  word_ie,
  stored_t,
  stored_b,
  word_exponent,
  word_b,
  word_t,
  word_t14,
};

use crate::parts::Fields;
use cap_model::{MAX_EXPONENT, NULL_FIELDS};

/// The fields of the word with this upper half.
pub fn fields(upper: u64) -> Fields
    ensures perms { result.perms ≡ word_perms upper }
    ensures otype { result.otype ≡ word_otype upper }
    ensures flag { result.flag ≡ word_flag upper }
    ensures reserved { result.reserved ≡ word_reserved upper }
    ensures ie { result.ie ≡ word_ie upper }
    ensures e { result.e ≡ word_exponent upper }
{
    Fields {
        perms: perms_field(upper),
        otype: otype_field(upper),
        flag: flag_field(upper),
        reserved: reserved_field(upper),
        ie: ie_field(upper),
        e: exponent_field(upper),
    }
}

/// The fields of an upper half, or the upper half with these fields: both ways the exclusive-or
/// with the null capability's fields (CHERI ISA v9, "capability encoding").
pub fn exclusive_or_null(upper: u64) -> u64
    ensures { result ≡ with_null_fields upper }
{
    upper ^ NULL_FIELDS
}

fn perms_field(upper: u64) -> u32
    ensures { result ≡ word_perms upper }
{
    let field = (exclusive_or_null(upper) >> 48) as u32;
    (field >> 12 << 15) | (field & 0xfff)
}

fn otype_field(upper: u64) -> u32
    ensures { result ≡ word_otype upper }
{
    ((exclusive_or_null(upper) >> 27) & 0x3_ffff) as u32
}

fn flag_field(upper: u64) -> u8
    ensures { result ≡ word_flag upper }
{
    ((exclusive_or_null(upper) >> 45) & 1) as u8
}

fn reserved_field(upper: u64) -> u8
    ensures { result ≡ word_reserved upper }
{
    ((exclusive_or_null(upper) >> 46) & 3) as u8
}

fn ie_field(upper: u64) -> u8
    ensures value { result ≡ word_ie upper }
    ensures below { result < 2 }
{
    ((exclusive_or_null(upper) >> 26) & 1) as u8
}

/// T as stored: with IE 1 its low three bits are the exponent's high ones.
fn stored_t_field(upper: u64) -> u16
    ensures value { result ≡ stored_t upper }
    ensures below { result < 2 ^ 12 }
{
    ((exclusive_or_null(upper) >> 14) & 0xfff) as u16
}

/// B as stored: with IE 1 its low three bits are the exponent's low ones.
fn stored_b_field(upper: u64) -> u16
    ensures value { result ≡ stored_b upper }
    ensures below { result < 2 ^ 14 }
{
    (exclusive_or_null(upper) & 0x3fff) as u16
}

/// The exponent E, at most 52.
pub(crate) fn exponent_field(upper: u64) -> u8
    ensures value { result ≡ word_exponent upper }
    ensures at_most { result ≤ 52 }
{
    if ie_field(upper) == 0 {
        return 0;
    }
    let high = (stored_t_field(upper) & 7) as u8;
    let low = (stored_b_field(upper) & 7) as u8;
    (8 * high + low).min(MAX_EXPONENT)
}

/// B, in which the bits of the exponent count as 0.
pub(crate) fn b_digits(upper: u64) -> u16
    ensures value { result ≡ word_b upper }
    ensures below { result < 2 ^ 14 }
{
    let stored = stored_b_field(upper);
    if ie_field(upper) == 0 {
        stored
    } else {
        stored >> 3 << 3
    }
}

/// The twelve stored bits of T, in which the bits of the exponent count as 0.
fn t_digits(upper: u64) -> u16
    ensures value { result ≡ word_t upper }
    ensures below { result < 2 ^ 12 }
{
    let stored = stored_t_field(upper);
    if ie_field(upper) == 0 {
        stored
    } else {
        stored >> 3 << 3
    }
}

/// T of fourteen bits: the two that are not stored follow from B, from a carry where T's stored
/// bits lie below B's, and from IE (CHERI Concentrate, "decoding of bounds").
pub(crate) fn full_t_digits(upper: u64) -> u16
    ensures value { result ≡ word_t14 upper }
    ensures below { result < 2 ^ 14 }
{
    let b = b_digits(upper);
    let t = t_digits(upper);
    let carry = u16::from(t < (b & 0xfff));
    let high = ((b >> 12) + carry + u16::from(ie_field(upper))) % 4;
    (high << 12) | t
}
