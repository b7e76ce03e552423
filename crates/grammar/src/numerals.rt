//! The numbers of a listing.
#![tactic(auto, unfolding(crate::specs::Numerals::number_of))]

ghost use Rattle.std.specs.Prelude.{◌≡◌, ◌≤◌};
ghost use Rattle.grammar.specs.Numerals.{number_of_digits, number_of, at_most};

use crate::fault::ListingFaultKind;
use text_numbers::number_in;

/// The number that a token of digits writes in a base; `None` at or above 2^128. Fails with
/// `Operand` where the token is empty or has another byte.
pub fn number_of_digits(base: u8, token: &[u8]) -> Result<Option<u128>, ListingFaultKind>
    requires { 1 ≤ base }
    ensures { result ≡ number_of_digits base token.now }
{
    number_in(base, token).ok_or(ListingFaultKind::Operand)
}

/// The number that a token writes, in decimal or after `0x` in hexadecimal; `None` at or above
/// 2^128. Fails with `Operand` where the token is no number.
pub fn number_of(token: &[u8]) -> Result<Option<u128>, ListingFaultKind>
    ensures { result ≡ number_of token.now }
{
    text_numbers::number_of(token).ok_or(ListingFaultKind::Operand)
}

/// A number from 0 to a limit. Fails with `Range`.
pub fn at_most(limit: u128, number: Option<u128>) -> Result<u128, ListingFaultKind>
    ensures { result ≡ at_most limit number }
{
    match number {
        Some(number) if number <= limit => Ok(number),
        _ => Err(ListingFaultKind::Range),
    }
}
