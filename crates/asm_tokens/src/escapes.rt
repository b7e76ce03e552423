//! The escapes of strings and characters.
#![tactic(auto, using(crate::proofs::Rulesets::cuts), unfolding(crate::proofs::Unfold::escapes))]

ghost use Rattle.std.specs.Prelude.{◌≡◌, ◌≤◌, ◌+◌, IfSome, length, take};
ghost use Rattle.asm_tokens.specs.Escapes.{
  named_escape,
  escaped_if_read,
  digits_in,
  octal_escape,
  hexadecimal_escape,
  last_two,
  escape_of,
};

use text_numbers::{digit_count, digits_value};

/// An escape: the byte that it means, and how many bytes of text it has after its backslash.
#[derive(Clone, Copy)]
pub struct Escape {
    pub byte: u8,
    pub length: usize,
}

/// The byte that a letter or a mark means after a backslash.
fn named_escape(letter: u8) -> Option<u8>
    ensures { result ≡ named_escape letter }
{
    match letter {
        b'b' => Some(8),
        b'f' => Some(12),
        b'n' => Some(10),
        b'r' => Some(13),
        b't' => Some(9),
        b'\\' | b'"' | b'\'' => Some(letter),
        _ => None,
    }
}

/// An escape of this number, if it is a byte.
fn escaped(number: Option<u128>, length: usize) -> Option<Escape>
    ensures value { result ≡ escaped_if_read number length }
    ensures length { IfSome result (λ escape. escape.length ≡ length) }
{
    match number {
        Some(number) if number <= 255 => Some(Escape {
            byte: number as u8,
            length,
        }),
        _ => None,
    }
}

/// The first three bytes, or fewer.
fn first_three(text: &[u8]) -> &[u8]
    ensures value { result.now ≡ take 3 text.now }
    ensures within { length result.now ≤ length text.now }
{
    if text.len() < 3 { text } else { &text[..3] }
}

/// The digits of a base that a text begins with.
fn digits_in(base: u8, text: &[u8]) -> &[u8]
    ensures value { result.now ≡ digits_in base text.now }
    ensures within { length result.now ≤ length text.now }
{
    &text[..digit_count(base, text)]
}

/// One to three octal digits, for a byte.
fn octal_escape(text: &[u8]) -> Option<Escape>
    ensures value { result ≡ octal_escape text.now }
    ensures within { IfSome result (λ escape. escape.length ≤ length text.now) }
{
    let digits = digits_in(8, first_three(text));
    if digits.is_empty() {
        return None;
    }
    escaped(digits_value(8, digits), digits.len())
}

/// The last two bytes, or fewer.
fn last_two(digits: &[u8]) -> &[u8]
    ensures { result.now ≡ last_two digits.now }
{
    &digits[digits.len().saturating_sub(2)..]
}

/// Hexadecimal digits after `x`, of which the last two count.
fn hexadecimal_escape(text: &[u8]) -> Option<Escape>
    ensures value { result ≡ hexadecimal_escape text.now }
    ensures within { IfSome result (λ escape. escape.length ≤ length text.now + 1) }
{
    let digits = digits_in(16, text);
    if digits.is_empty() {
        return None;
    }
    escaped(digits_value(16, last_two(digits)), digits.len() + 1)
}

/// The escape that a text begins with, after its backslash.
pub fn escape_of(text: &[u8]) -> Option<Escape>
    ensures value { result ≡ escape_of text.now }
    ensures within { IfSome result (λ escape. escape.length ≤ length text.now) }
{
    match text {
        [b'x' | b'X', digits @ ..] => hexadecimal_escape(digits),
        [b'0'..=b'7', ..] => octal_escape(text),
        [letter, ..] => {
            let byte = named_escape(*letter)?;
            Some(Escape { byte, length: 1 })
        }
        [] => None,
    }
}
