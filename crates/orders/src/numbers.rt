//! The numbers of a sweep.

ghost use Rattle.std.specs.Prelude.{◌≡◌, ◌-◌, ◌^◌, ◌<◌, ◌≤◌, IfOk, length, drop, min};
ghost use Rattle.orders.specs.Numbers.{
  base_of,
  prefix_bytes,
  digits_of,
  number_of,
  has_byte,
  number_end,
};

use crate::fault::OrderFault;
use text_numbers::{digit_count, digits_value};

/// The base of the number that a text begins with.
fn base_of(text: &[u8]) -> u8
    ensures { result ≡ base_of text.now }
{
    match text {
        [b'0', b'x', ..] => 16,
        _ => 10,
    }
}

/// How many bytes stand before its digits.
fn prefix_bytes(text: &[u8]) -> usize
    ensures { result ≡ prefix_bytes text.now }
{
    match text {
        [b'0', b'x', ..] => 2,
        _ => 0,
    }
}

/// Its digits.
fn digits_of(text: &[u8]) -> &[u8]
    ensures { result.now ≡ digits_of text.now }
{
    let digits = &text[prefix_bytes(text)..];
    &digits[..digit_count(base_of(text), digits)]
}

/// The number from a place on, or the greatest of 128 bits where it is greater: no range goes as
/// far.
#[tactic(auto, unfolding(crate::specs::Numbers::number_of))]
pub fn number_at(text: &[u8], place: usize) -> u128
    requires { place ≤ length text.now }
    ensures { result ≡ min (number_of (drop place text.now)) (2 ^ 128 - 1) }
{
    let rest = &text[place..];
    digits_value(base_of(rest), digits_of(rest)).unwrap_or(u128::MAX)
}

/// Whether a text has this byte at a place.
fn has_byte(byte: u8, text: &[u8], place: usize) -> bool
    ensures { result ≡ has_byte byte text.now place }
{
    place < text.len() && text[place] == byte
}

/// Where the byte is that closes the number from a place on. Fails at the first byte that cannot
/// stand there.
pub fn number_end(closer: u8, text: &[u8], place: usize) -> Result<usize, OrderFault>
    requires { place ≤ length text.now }
    ensures end { result ≡ number_end closer text.now place }
    ensures inside { IfOk result (λ end. (place ≤ end) × (end < length text.now)) }
{
    let rest = &text[place..];
    let count = digits_of(rest).len();
    let end = place + prefix_bytes(rest) + count;
    if count > 0 && has_byte(closer, text, end) {
        Ok(end)
    } else {
        Err(OrderFault::byte(end))
    }
}
