//! Numbers in hexadecimal.

ghost use Rattle.std.specs.Prelude.{◌≡◌, ◌+◌, ◌<◌, ◌≤◌, ◌++◌, Some, drop, length};
ghost use Rattle.std.specs.Fmt.{DisplaysOnOk};
ghost use Rattle.std.specs.Char.{digit_char};
ghost use Rattle.report_lines.specs.ValueText.{hex_text};
ghost use Rattle.report_lines.specs.declared.digits.TheConstants.{MOST_DIGITS};

use bitflags::Flags;
use cheri_model::Perms;
use itoa::{Buffer, Integer};
use std::fmt;
use text_numbers::{BUFFER, word_digits};

/// The most hexadecimal digits that stand together in a report: those of the top of a capability.
pub const MOST_DIGITS: usize = 17;

/// A number's lowest hexadecimal digits in lower case, `width` of them: at most `MOST_DIGITS`.
#[derive(Clone, Copy)]
pub struct Hex {
    pub number: u128,
    pub width: usize,
    ghost within: { width ≤ MOST_DIGITS },
}

impl Hex {
    /// The digits of a top, which may be 2^64.
    pub fn of_top(top: u128) -> Hex
        ensures number { result.number ≡ top }
        ensures width { result.width ≡ MOST_DIGITS }
    {
        Hex::new(top, MOST_DIGITS)
    }

    /// The digits of a permission set in CGetPerm's form.
    pub fn of_perms(perms: Perms) -> Hex
        ensures number { result.number ≡ perms.0 }
        ensures width { result.width ≡ 5 }
    {
        Hex::new(u128::from(perms.bits()), 5)
    }

    /// The lowest hexadecimal digits of a number, `width` of them: at most `MOST_DIGITS`.
    pub fn new(number: u128, width: usize) -> Hex
        requires { width ≤ MOST_DIGITS }
        ensures number { result.number ≡ number }
        ensures width { result.width ≡ width }
    {
        Hex { number, width }
    }
}

/// The ASCII digit with this value.
fn hex_digit(digit: u8) -> u8
    requires { digit < 16 }
    ensures { result ≡ digit_char digit }
{
    if digit < 10 {
        b'0' + digit
    } else {
        b'a' + (digit - 10)
    }
}

/// The lowest digits of a number, `MOST_DIGITS` of them.
pub(crate) fn most_digits(number: u128) -> [u8; MOST_DIGITS]
    ensures { result ≡ hex_text MOST_DIGITS number }
{
    let mut digits = [hex_digit(((number >> 64) & 15) as u8); MOST_DIGITS];
    digits[1..].copy_from_slice(&word_digits((number & u128::from(u64::MAX)) as u64));
    digits
}

/// Puts a text into a buffer so that it ends at `end`, and gives where it starts. An `Integer` of
/// several parts is written so, from its last part on, and then appended at once.
pub fn put_before(buf: &mut [u8; BUFFER], end: usize, text: &[u8]) -> usize
    requires within { length text.now ≤ end }
    requires end { end ≤ 40 }
    ensures start { result + length text.now ≡ end }
    ensures written { drop result buf.new ≡ text.now ++ drop end buf.old }
{
    let start = end - text.len();
    buf[start..end].copy_from_slice(text);
    start
}

/// Puts the lowest digits of a number at the end of a buffer, `MOST_DIGITS` of them.
fn fill_end(number: u128, buf: &mut [u8; BUFFER])
    ensures { drop 23 buf.new ≡ hex_text MOST_DIGITS number }
{
    buf[BUFFER - MOST_DIGITS..].copy_from_slice(&most_digits(number));
}

/// Written into `itoa`'s buffer, as its integers are: what it gives is text without a check.
impl Integer for Hex {
    const MAX_STR_LEN: usize = MOST_DIGITS;

    ghost MAX_STR_LEN = { MOST_DIGITS };

    ghost text = { λ h. hex_text h.width h.number };

    fn write(self, buf: &mut [u8; BUFFER]) -> usize {
        fill_end(self.number, buf);
        BUFFER - self.width
    }
}

impl fmt::Display for Hex {
    ghost output = { λ h. Some (hex_text h.width h.number) };

    fn fmt<W: fmt::Write>(&self, f: &mut fmt::Formatter<W>) -> fmt::Result {
        f.write_str(Buffer::new().format(*self))
    }
}
