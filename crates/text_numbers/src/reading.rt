//! Numbers that digits write.
#![tactic(auto, using(crate::proofs::Rulesets::reading), unfolding(crate::proofs::Unfold::reading))]

ghost use Rattle.std.specs.Prelude.{◌≡◌, ◌≤◌, fold, true, Some, length, option_map};
ghost use Rattle.std.specs.Char.{digit_value, is_digit};
ghost use Rattle.std.specs.List.{take_while};
ghost use Rattle.std.specs.Str.Parse.{digits_value};
ghost use Rattle.text_numbers.specs.Numerals.{
  values_from,
  is_numeral,
  within_128_bits,
  with_digit,
  number_in,
  number_of,
};

/// What each byte stands for as a digit. A look-up takes no branch; those on the digits of a text
/// are hard to predict.
const DIGIT_VALUES: &[u8; 256] = &[
    36, 36, 36, 36, 36, 36, 36, 36, 36, 36, 36, 36, 36, 36, 36, 36, 36, 36, 36, 36, 36, 36, 36, 36,
    36, 36, 36, 36, 36, 36, 36, 36, 36, 36, 36, 36, 36, 36, 36, 36, 36, 36, 36, 36, 36, 36, 36, 36,
    0, 1, 2, 3, 4, 5, 6, 7, 8, 9, 36, 36, 36, 36, 36, 36, 36, 10, 11, 12, 13, 14, 15, 16, 17, 18,
    19, 20, 21, 22, 23, 24, 25, 26, 27, 28, 29, 30, 31, 32, 33, 34, 35, 36, 36, 36, 36, 36, 36, 10,
    11, 12, 13, 14, 15, 16, 17, 18, 19, 20, 21, 22, 23, 24, 25, 26, 27, 28, 29, 30, 31, 32, 33, 34,
    35, 36, 36, 36, 36, 36, 36, 36, 36, 36, 36, 36, 36, 36, 36, 36, 36, 36, 36, 36, 36, 36, 36, 36,
    36, 36, 36, 36, 36, 36, 36, 36, 36, 36, 36, 36, 36, 36, 36, 36, 36, 36, 36, 36, 36, 36, 36, 36,
    36, 36, 36, 36, 36, 36, 36, 36, 36, 36, 36, 36, 36, 36, 36, 36, 36, 36, 36, 36, 36, 36, 36, 36,
    36, 36, 36, 36, 36, 36, 36, 36, 36, 36, 36, 36, 36, 36, 36, 36, 36, 36, 36, 36, 36, 36, 36, 36,
    36, 36, 36, 36, 36, 36, 36, 36, 36, 36, 36, 36, 36, 36, 36, 36, 36, 36, 36, 36, 36, 36, 36, 36,
    36, 36, 36, 36, 36, 36, 36, 36, 36, 36, 36, 36, 36, 36,
];

/// What each byte stands for as a digit.
fn digit_values() -> &'static [u8; 256]
    ensures { values_from 0 result.now ≡ true }
{
    DIGIT_VALUES
}

/// What a digit of either case stands for: 10 for `a`, 35 for `z`, and 36 for what is no digit.
fn digit_value(byte: u8) -> u8
    ensures { result ≡ digit_value byte }
{
    digit_values()[usize::from(byte)]
}

/// How many digits of the base a text begins with.
pub fn digit_count(base: u8, text: &[u8]) -> usize
    ensures { result ≡ length (take_while (λ b. is_digit b base) text.now) }
{
    text.iter()
        .take_while(|byte| digit_value(**byte) < base)
        .count()
}

/// Whether a text is one digit of the base or more, and nothing else.
fn is_numeral(base: u8, text: &[u8]) -> bool
    ensures { result ≡ is_numeral base text.now }
{
    !text.is_empty() && digit_count(base, text) == text.len()
}

/// The number with one more digit after it; `None` at or above 2^128.
fn with_digit(base: u8, number: Option<u128>, byte: u8) -> Option<u128>
    ensures { result ≡ with_digit base number byte }
{
    number?
        .checked_mul(u128::from(base))?
        .checked_add(u128::from(digit_value(byte)))
}

/// The number of one digit after another.
fn with_digits(base: u8, digits: &[u8]) -> Option<u128>
    ensures { result ≡ fold (with_digit base) (Some 0) digits.now }
{
    digits
        .iter()
        .fold(Some(0), |number, byte| with_digit(base, number, *byte))
}

/// The number that digits of a base write; `None` at or above 2^128.
pub fn digits_value(base: u8, digits: &[u8]) -> Option<u128>
    requires { 1 ≤ base }
    ensures { result ≡ within_128_bits (digits_value base digits.now) }
{
    with_digits(base, digits)
}

/// The number that a text writes in a base; `None` where it is no numeral, and `Some(None)` where
/// the number is 2^128 or more.
pub fn number_in(base: u8, text: &[u8]) -> Option<Option<u128>>
    requires { 1 ≤ base }
    ensures { result ≡ option_map within_128_bits (number_in base text.now) }
{
    if is_numeral(base, text) {
        Some(digits_value(base, text))
    } else {
        None
    }
}

/// The number that a text writes, in decimal or after `0x` in hexadecimal; `None` where it writes
/// none, and `Some(None)` where it is 2^128 or more.
pub fn number_of(text: &[u8]) -> Option<Option<u128>>
    ensures { result ≡ option_map within_128_bits (number_of text.now) }
{
    match text {
        [b'0', b'x', digits @ ..] => number_in(16, digits),
        _ => number_in(10, text),
    }
}
