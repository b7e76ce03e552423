//! The rows of words.
#![tactic(auto, using(cap_model::proofs::Words::RawWords::raw_top_lt), unfolding(crate::proofs::Unfold::words))]

ghost use Rattle.std.specs.Prelude.{◌≡◌, ◌+◌, ◌*◌, ◌/◌, ◌%◌, ◌^◌, ◌<◌, ◌++◌, OnOk, string_bytes};
ghost use Rattle.cap_model.specs.results.EditedWords.{word_of_halves};
ghost use Rattle.cap_ops.specs.Tagged.{is_encoding};
ghost use Rattle.cheri_vectors.specs.Texts.{bit_of};
ghost use Rattle.cheri_vectors.specs.Words.{
  bit_word,
  bounds_text,
  fields_text,
  word_row,
  bit_row,
  corner_row,
  upper_with,
  corner_upper,
  corner_addr,
};

use crate::hex::Top;
use cap_bounds::{decode, fields};
use cap_model::{NULL_FIELDS, UNSEALED_TYPE};
use cap_ops::Cap;
use std::alloc::AllocError;

/// How many rows have null or one bit.
pub const BIT_ROWS: usize = 129;

/// How many rows have bounds at the quarters.
pub const CORNER_ROWS: usize = 14_850;

/// B at the quarters of its 14 bits and at their ends, without the bits of the exponent.
pub const B_DIGITS: [u16; 9] = [
    0, 0x0008, 0x0FF8, 0x1000, 0x1FF8, 0x2000, 0x2FF8, 0x3000, 0x3FF8,
];

/// T at the ends and in the middle of its 12 bits, without the bits of the exponent.
pub const T_DIGITS: [u16; 5] = [0, 0x008, 0x7F8, 0x800, 0xFF8];

/// A truth value as a digit.
pub fn bit_of(holds: bool) -> u8
    ensures { result ≡ bit_of holds }
{
    if holds { 1 } else { 0 }
}

/// An unsealed word with no permission and these fields of its bounds.
pub fn upper_with(ie: u8, t: u32, b: u32) -> u64
    ensures { result ≡ upper_with ie t b }
{
    let low = (u64::from(ie) << 26) + (u64::from(t) << 14) + u64::from(b);
    ((u64::from(UNSEALED_TYPE) << 27) + low) ^ NULL_FIELDS
}

/// Appends a word and its bounds.
fn push_bounds(out: &mut String, upper: u64, addr: u64) -> Result<(), AllocError>
    ensures { OnOk result (string_bytes out.new ≡ string_bytes out.old ++ bounds_text upper addr) }
{
    let (base, top) = decode(upper, addr);
    let top = Top { number: top };
    write!(out, "word {upper:x} {addr:x} {base:x} {top}")?;
    Ok(())
}

/// Whether a capability has this word.
fn is_capability(upper: u64, addr: u64) -> bool
    ensures { result ≡ is_encoding (word_of_halves upper addr) }
{
    Cap::from_tagged(true, upper, addr).tag()
}

/// Appends a word's fields, and whether a capability has it.
fn push_fields(out: &mut String, upper: u64, addr: u64) -> Result<(), AllocError>
    ensures { OnOk result (string_bytes out.new ≡ string_bytes out.old ++ fields_text upper addr) }
{
    let parts = fields(upper);
    let (perms, otype) = (parts.perms, parts.otype);
    let (flag, reserved) = (parts.flag, parts.reserved);
    let (ie, e) = (parts.ie, parts.e);
    let capability = bit_of(is_capability(upper, addr));
    writeln!(
        out,
        " {perms:x} {otype:x} {flag:x} {reserved:x} {ie:x} {e:x} {capability:x}"
    )?;
    Ok(())
}

/// Appends the row of a word.
fn push_word(out: &mut String, upper: u64, addr: u64) -> Result<(), AllocError>
    ensures { OnOk result (string_bytes out.new ≡ string_bytes out.old ++ word_row upper addr) }
{
    push_bounds(out, upper, addr)?;
    push_fields(out, upper, addr)
}

/// Null, or the word with one bit.
fn bit_word(n: usize) -> u128
    requires { n < BIT_ROWS }
    ensures { result ≡ bit_word n }
{
    if n == 0 { 0 } else { 1 << (n - 1) }
}

/// Appends the row of null or of the word with one bit.
pub fn push_bit_row(out: &mut String, n: usize) -> Result<(), AllocError>
    requires { n < BIT_ROWS }
    ensures { OnOk result (string_bytes out.new ≡ string_bytes out.old ++ bit_row n) }
{
    let word = bit_word(n);
    push_word(out, (word >> 64) as u64, (word % (1 << 64)) as u64)
}

/// The upper half of a word with bounds at the quarters.
fn corner_upper(n: usize) -> u64
    requires { n < CORNER_ROWS }
    ensures { result ≡ corner_upper n }
{
    let e = (n / 225) as u32;
    let (t, b) = (
        u32::from(T_DIGITS[n / 5 % 5]),
        u32::from(B_DIGITS[n / 25 % 9]),
    );
    if e < 64 {
        upper_with(1, t + e / 8, b + e % 8)
    } else {
        upper_with(0, t + (e - 64) * 7, b + (e - 64) * 7)
    }
}

/// An address that the word is looked at with.
fn corner_addr(n: usize) -> u64
    requires { n < CORNER_ROWS }
    ensures { result ≡ corner_addr n }
{
    let e = (n / 225 % 64) as u32;
    let b = u128::from(B_DIGITS[n / 25 % 9]);
    let base = ((b << e) % (1 << 64)) as u64;
    let floor = (b / 2048 + 7) % 8 * 2048;
    if n % 5 == 0 {
        0
    } else if n % 5 == 1 {
        u64::MAX
    } else if n % 5 == 2 {
        base
    } else if n % 5 == 3 {
        base.wrapping_sub(1)
    } else {
        ((floor << e) % (1 << 64)) as u64
    }
}

/// Appends the row of a word with bounds at the quarters.
pub fn push_corner_row(out: &mut String, n: usize) -> Result<(), AllocError>
    requires { n < CORNER_ROWS }
    ensures { OnOk result (string_bytes out.new ≡ string_bytes out.old ++ corner_row n) }
{
    push_word(out, corner_upper(n), corner_addr(n))
}
