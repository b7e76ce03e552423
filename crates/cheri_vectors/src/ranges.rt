//! The rows of ranges.

ghost use Rattle.std.specs.Prelude.{◌≡◌, ◌<◌, ◌++◌, OnOk, string_bytes};
ghost use Rattle.cheri_vectors.specs.Ranges.{
  rounded_text,
  encoding_text,
  range_row,
  power_len,
  power_row,
  corner_base,
  corner_len,
  corner_range_row,
};

use crate::hex::Top;
use crate::words::bit_of;
use cap_bounds::{cram, crrl, set_bounds};
use std::alloc::AllocError;

/// How many rows have a length at a power of 2.
pub const POWER_ROWS: usize = 1152;

/// How many rows have a base and a length at the ends of an exponent.
pub const CORNER_RANGE_ROWS: usize = 768;

/// Appends a range and the bounds of its rounding.
fn push_rounded(out: &mut String, base: u64, len: u64) -> Result<(), AllocError>
    ensures { OnOk result (string_bytes out.new ≡ string_bytes out.old ++ rounded_text base len) }
{
    let rounded = set_bounds(base, u128::from(len));
    let low = rounded.base;
    let top = Top {
        number: rounded.top,
    };
    write!(out, "range {base:x} {len:x} {low:x} {top}")?;
    Ok(())
}

/// Appends the fields of the rounding, and the length and the alignment for exact bounds.
fn push_encoding(out: &mut String, base: u64, len: u64) -> Result<(), AllocError>
    ensures { OnOk result (string_bytes out.new ≡ string_bytes out.old ++ encoding_text base len) }
{
    let rounded = set_bounds(base, u128::from(len));
    let (b, t) = (rounded.b, rounded.t);
    let (ie, e) = (rounded.ie, rounded.e);
    let exact = bit_of(rounded.exact);
    let (length, mask) = (crrl(len), cram(len));
    writeln!(
        out,
        " {b:x} {t:x} {ie:x} {e:x} {exact:x} {length:x} {mask:x}"
    )?;
    Ok(())
}

/// Appends the row of a range.
fn push_range(out: &mut String, base: u64, len: u64) -> Result<(), AllocError>
    ensures { OnOk result (string_bytes out.new ≡ string_bytes out.old ++ range_row base len) }
{
    push_rounded(out, base, len)?;
    push_encoding(out, base, len)
}

/// A length at a power of 2.
fn power_len(n: usize) -> u64
    requires { n < POWER_ROWS }
    ensures { result ≡ power_len n }
{
    let near = u128::from(1u64 << (n / 18)) + (1 << 64) + (n % 18) as u128 - 9;
    (near % (1 << 64)) as u64
}

/// Appends the row of a length at a power of 2.
pub fn push_power_row(out: &mut String, n: usize) -> Result<(), AllocError>
    requires { n < POWER_ROWS }
    ensures { OnOk result (string_bytes out.new ≡ string_bytes out.old ++ power_row n) }
{
    push_range(out, 0, power_len(n))
}

/// A base at the ends of an exponent.
fn corner_base(n: usize) -> u64
    requires { n < CORNER_RANGE_ROWS }
    ensures { result ≡ corner_base n }
{
    let power = 1u64 << (n / 12);
    if n / 3 % 4 == 0 {
        0
    } else if n / 3 % 4 == 1 {
        1
    } else if n / 3 % 4 == 2 {
        power
    } else {
        u64::MAX - power + 1
    }
}

/// A length at the ends of an exponent.
fn corner_len(n: usize) -> u64
    requires { n < CORNER_RANGE_ROWS }
    ensures { result ≡ corner_len n }
{
    let power = 1u128 << (n / 12);
    let len = if n % 3 == 0 {
        8191 * power
    } else if n % 3 == 1 {
        8191 * power + 1
    } else {
        4097 * power
    };
    (len % (1 << 64)) as u64
}

/// Appends the row of a range at the ends of an exponent.
pub fn push_corner_range_row(out: &mut String, n: usize) -> Result<(), AllocError>
    requires { n < CORNER_RANGE_ROWS }
    ensures { OnOk result (string_bytes out.new ≡ string_bytes out.old ++ corner_range_row n) }
{
    push_range(out, corner_base(n), corner_len(n))
}
