//! Numbers in hexadecimal.

ghost use Rattle.std.specs.Prelude.{◌≡◌, ◌/◌, ◌%◌, ◌^◌, ◌<◌, Some};
ghost use Rattle.std.specs.Fmt.{DisplaysOnOk};
ghost use Rattle.text_numbers.specs.Hexadecimal.{hex_text, number_text};

use itoa::{Buffer, Integer};
use std::fmt;
use std::simd::prelude::*;

/// The bytes of `itoa`'s buffer, into which an `Integer` is written.
pub const BUFFER: usize = 40;

/// The sixteen digits of a number of 64 bits. A vector makes all of them at once: digits that are
/// stored one by one make the next read of them wait.
pub fn word_digits(number: u64) -> [u8; 16]
    ensures { result ≡ hex_text 16 number }
{
    let bytes = u64x2::from_array([number, 0]).to_le_bytes();
    let (upper, lower) = (bytes / u8x16::splat(16), bytes % u8x16::splat(16));
    let digits: u8x16 = upper.shuffle(
        lower,
        [7, 23, 6, 22, 5, 21, 4, 20, 3, 19, 2, 18, 1, 17, 0, 16],
    );
    let letters = digits.simd_gt(u8x16::splat(9));
    let signs = letters.select(u8x16::splat(b'a' - 10), u8x16::splat(b'0'));
    (signs + digits).to_array()
}

/// All sixteen hexadecimal digits of a number of 64 bits, as an address is, in lower case. Written
/// into `itoa`'s buffer, as its integers are: what it gives is text without a check.
#[derive(Clone, Copy)]
pub struct Hex64(pub u64);

impl Integer for Hex64 {
    const MAX_STR_LEN: usize = 16;

    ghost MAX_STR_LEN = { 16 };

    ghost text = { λ h. hex_text 16 h.0 };

    fn write(self, buf: &mut [u8; BUFFER]) -> usize {
        buf[BUFFER - 16..].copy_from_slice(&word_digits(self.0));
        BUFFER - 16
    }
}

impl fmt::Display for Hex64 {
    ghost output = { λ h. Some (hex_text 16 h.0) };

    fn fmt<W: fmt::Write>(&self, f: &mut fmt::Formatter<W>) -> fmt::Result {
        f.write_str(Buffer::new().format(*self))
    }
}

/// The two words of a number, the upper one first.
fn words_of(number: u128) -> (u64, u64)
    ensures upper { result.0 ≡ number / 2 ^ 64 }
    ensures lower { result.1 ≡ number % 2 ^ 64 }
    ensures number { number < 2 ^ 128 }
{
    (
        (number >> 64) as u64,
        (number & u128::from(u64::MAX)) as u64,
    )
}

/// A number: `0x` and its hexadecimal digits in lower case, without leading zeros.
#[derive(Clone, Copy)]
pub struct NumberText(pub u128);

impl fmt::Display for NumberText {
    ghost output = { λ n. Some (number_text n.0) };

    fn fmt<W: fmt::Write>(&self, f: &mut fmt::Formatter<W>) -> fmt::Result {
        let (upper, lower) = words_of(self.0);
        if upper == 0 {
            return write!(f, "0x{lower:x}");
        }
        write!(f, "0x{upper:x}{}", Hex64(lower))
    }
}
