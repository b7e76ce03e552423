//! Immediates: their ranges, and the two parts of a number of 32 bits.
#![tactic(auto, unfolding(crate::proofs::Unfold::immediates))]

ghost use Rattle.std.specs.Prelude.{◌≡◌, ◌%◌, ◌<◌, ◌≤◌, IfSome};
ghost use Rattle.asm_expansions.specs.Immediates.{
  bits_of,
  low,
  high_bits,
  high_field,
  is_reachable,
  is_signed,
  signed,
  up_to,
};

use cheri_model::MAX_IMMEDIATE;

/// What a number is modulo 4,096, of its bits.
pub(crate) fn rest(bits: u64) -> u16
    ensures value { result ≡ bits % 4096 }
    ensures below { result < 4096 }
{
    (bits % 4096) as u16
}

/// The low part of a number, of its bits.
pub(crate) fn low_part(bits: u64) -> i16
    ensures { result ≡ low bits }
{
    let rest = rest(bits) as i16;
    if rest < 2048 { rest } else { rest - 4096 }
}

/// The low part of a number: what it is modulo 4,096, from -2,048 to 2,047.
pub fn low(n: i64) -> i16
    ensures { result ≡ low (bits_of n) }
{
    low_part(n.cast_unsigned())
}

/// The number without its low part, in units of 4,096, as 20 bits, of its bits.
pub(crate) fn high_bits(bits: u64) -> u32
    ensures { result ≡ high_bits bits }
{
    (bits.wrapping_add(2048) / 4096 % (1 << 20)) as u32
}

/// Whether `lui` and `auipcc` reach a number.
fn is_reachable(n: i64) -> bool
    ensures { result ≡ is_reachable n }
{
    if n < 0 {
        n >= -(1 << 31) - 2048
    } else {
        n < (1 << 31) - 2048
    }
}

/// The immediate of `lui` or `auipcc` for a number: the number without its low part, in units of
/// 4,096, as 20 bits. `None` where that is not a number of 20 bits with a sign.
pub fn high_field(n: i64) -> Option<u32>
    ensures { result ≡ high_field n }
{
    if is_reachable(n) {
        Some(high_bits(n.cast_unsigned()))
    } else {
        None
    }
}

/// Whether a number is an immediate of 12 bits with a sign.
fn is_signed(n: i64) -> bool
    ensures { result ≡ is_signed n }
{
    let most = i64::from(MAX_IMMEDIATE);
    if n < 0 { n >= -most - 1 } else { n <= most }
}

/// An immediate of 12 bits with a sign. `None` where the number is out of its range.
pub(crate) fn signed(n: i64) -> Option<i16>
    ensures { result ≡ signed n }
{
    if is_signed(n) { Some(n as i16) } else { None }
}

/// A number from 0 to a limit. `None` where it isn't one.
pub(crate) fn up_to(most: u32, n: i64) -> Option<u32>
    ensures value { result ≡ up_to most n }
    ensures bound { IfSome result (λ number. number ≤ most) }
{
    if n < 0 || n > i64::from(most) {
        None
    } else {
        Some(n as u32)
    }
}
