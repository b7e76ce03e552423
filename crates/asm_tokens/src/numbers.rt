//! Numbers, and the numbers of local labels.
#![tactic(auto, using(crate::proofs::Rulesets::numbers), unfolding(crate::proofs::Unfold::numbers))]

ghost use Rattle.std.specs.Prelude.{◌≡◌, ◌≤◌, ◌==◌, length, option_map, take_while};
ghost use Rattle.text_numbers.specs.Numerals.{number_in, is_numeral};
ghost use Rattle.asm_tokens.specs.Numbers.{
  written_number,
  within_64_bits,
  narrowed,
  is_local,
  number_kind,
  without_zeros,
};

use crate::token::TokenKind;
use text_numbers::number_in;

/// A number of 128 bits, where it has 64.
fn narrowed(number: Option<u128>) -> Option<u64>
    ensures { result ≡ narrowed number }
{
    match number {
        Some(number) if number <= u128::from(u64::MAX) => Some(number as u64),
        _ => None,
    }
}

/// The number that digits of a base write, `Some(None)` where it is 2^64 or more.
fn number_of_base(base: u8, digits: &[u8]) -> Option<Option<u64>>
    requires { 1 ≤ base }
    ensures { result ≡ option_map within_64_bits (number_in base digits.now) }
{
    let number = number_in(base, digits)?;
    Some(narrowed(number))
}

/// The number that a word writes, `Some(None)` where it is 2^64 or more.
fn written_number(word: &[u8]) -> Option<Option<u64>>
    ensures { result ≡ option_map within_64_bits (written_number word.now) }
{
    match word {
        [b'0', b'x' | b'X', digits @ ..] => number_of_base(16, digits),
        [b'0', b'b' | b'B', digits @ ..] => number_of_base(2, digits),
        [b'0', ..] => number_of_base(8, word),
        _ => number_of_base(10, word),
    }
}

/// Whether a text is decimal digits.
fn is_decimal(digits: &[u8]) -> bool
    ensures { result ≡ is_numeral 10 digits.now }
{
    number_in(10, digits).is_some()
}

/// Whether a word is decimal digits and `b` or `f`.
fn is_local(word: &[u8]) -> bool
    ensures { result ≡ is_local word.now }
{
    match word {
        [digits @ .., b'b' | b'f'] => is_decimal(digits),
        _ => false,
    }
}

/// What a word that begins with a digit is: a number, else a local label's.
pub fn number_kind(word: &[u8]) -> Option<TokenKind>
    ensures { result ≡ number_kind word.now }
{
    match written_number(word) {
        Some(number) => Some(TokenKind::Number(number)),
        None if is_local(word) => Some(TokenKind::Local),
        None => None,
    }
}

/// How many zeros a text begins with.
fn zero_count(digits: &[u8]) -> usize
    ensures { result ≡ length (take_while (λ b. b == 0x30) digits.now) }
{
    digits.iter().take_while(|byte| **byte == b'0').count()
}

/// Decimal digits without zeros before them: two local labels are the same where these are.
pub fn without_zeros(digits: &[u8]) -> &[u8]
    ensures { result.now ≡ without_zeros digits.now }
{
    &digits[zero_count(digits)..]
}
