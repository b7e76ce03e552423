//! The rows of addresses.

ghost use Rattle.std.specs.Prelude.{◌≡◌, ◌^◌, ◌<◌, ◌≤◌, ◌++◌, OnOk, string_bytes};
ghost use Rattle.cheri_vectors.specs.Addresses.{
  keeps_bounds,
  kept_row,
  window_upper,
  window_addr,
  window_start,
  new_addr,
  address_row,
};

use crate::words::{bit_of, upper_with};
use cap_bounds::representable;
use std::alloc::AllocError;

/// How many rows there are: 53 exponents, four B, six addresses.
pub const ADDRESS_ROWS: usize = 1272;

/// B in each of its quarters, without the bits of the exponent.
pub const B_DIGITS: [u16; 4] = [0x0008, 0x1800, 0x2FF8, 0x3FF8];

/// Whether the bounds are the same at both addresses.
fn keeps_bounds(upper: u64, addr: u64, new: u64) -> bool
    ensures { result ≡ keeps_bounds upper addr new }
{
    representable(upper, addr, new)
}

/// Appends the row of a word and another address.
fn push_kept(out: &mut String, upper: u64, addr: u64, new: u64) -> Result<(), AllocError>
    ensures { OnOk result (string_bytes out.new ≡ string_bytes out.old ++ kept_row upper addr new) }
{
    let kept = bit_of(keeps_bounds(upper, addr, new));
    writeln!(out, "address {upper:x} {addr:x} {new:x} {kept:x}")?;
    Ok(())
}

/// The upper half of a word with bounds that are 2^12 steps of 2^E long.
fn window_upper(n: usize) -> u64
    requires { n < ADDRESS_ROWS }
    ensures { result ≡ window_upper n }
{
    let e = (n / 24) as u32;
    let b = u32::from(B_DIGITS[n / 6 % 4]);
    upper_with(1, b % 4096 + e / 8, b + e % 8)
}

/// The base of these bounds.
fn window_addr(n: usize) -> u64
    requires { n < ADDRESS_ROWS }
    ensures { result ≡ window_addr n }
{
    let e = (n / 24) as u32;
    let b = u128::from(B_DIGITS[n / 6 % 4]);
    ((b << e) % (1 << 64)) as u64
}

/// The first address of their window.
fn window_start(n: usize) -> u64
    requires { n < ADDRESS_ROWS }
    ensures { result ≡ window_start n }
{
    let e = (n / 24) as u32;
    let b = u128::from(B_DIGITS[n / 6 % 4]);
    let below = (b / 2048 * 2048 << e) + (1 << 64) - (1 << (e + 11));
    (below % (1 << 64)) as u64
}

/// A power of 2.
fn power_of_two(e: u32) -> u128
    requires { e ≤ 66 }
    ensures value { result ≡ 2 ^ e }
    ensures at_most { result ≤ 2 ^ 66 }
{
    1 << e
}

/// An address at an end of the window or of the bounds.
fn new_addr(n: usize) -> u64
    requires { n < ADDRESS_ROWS }
    ensures { result ≡ new_addr n }
{
    let e = (n / 24) as u32;
    let (start, base) = (u128::from(window_start(n)), u128::from(window_addr(n)));
    let place = if n % 6 == 0 {
        start
    } else if n % 6 == 1 {
        start + (1 << 64) - 1
    } else if n % 6 == 2 {
        start + power_of_two(e + 14)
    } else if n % 6 == 3 {
        start + power_of_two(e + 14) + (1 << 64) - 1
    } else if n % 6 == 4 {
        base
    } else {
        base + power_of_two(e + 12)
    };
    (place % (1 << 64)) as u64
}

/// Appends the row of an address at an end of the window or of the bounds.
pub fn push_address_row(out: &mut String, n: usize) -> Result<(), AllocError>
    requires { n < ADDRESS_ROWS }
    ensures { OnOk result (string_bytes out.new ≡ string_bytes out.old ++ address_row n) }
{
    push_kept(out, window_upper(n), window_addr(n), new_addr(n))
}
