//! The words of a map's lines.
#![tactic(auto, using(crate::proofs::TextLemmas::texts), unfolding(crate::proofs::Unfold::words))]

ghost use Rattle.std.specs.Prelude.{◌≡◌, ◌≤◌, option_map};
ghost use Rattle.std.specs.List.{list_all};
ghost use Rattle.asm_tokens.specs.Bytes.{is_name_byte, is_name_start};
ghost use Rattle.asm_map_reader.specs.Words.{
  number_64,
  plain_number,
  address_of,
  text_of,
  is_symbol,
  symbol_of,
};

use std::str;
use text_numbers::{number_in, word_digits};

/// A number of 64 bits, by its digits.
fn number_64(base: u8, text: &[u8]) -> Option<u64>
    requires { 1 ≤ base }
    ensures { result ≡ number_64 base text.now }
{
    match number_in(base, text)? {
        Some(number) if number < 0x1_0000_0000_0000_0000 => Some(number as u64),
        _ => None,
    }
}

/// A number of 64 bits, by decimal digits without leading zeros.
pub(crate) fn plain_number(text: &[u8]) -> Option<u64>
    ensures { result ≡ plain_number text.now }
{
    match text {
        [b'0', _, ..] => None,
        _ => number_64(10, text),
    }
}

/// A number of 64 bits, by all its sixteen hexadecimal digits.
pub(crate) fn address_of(text: &[u8]) -> Option<u64>
    ensures { result ≡ address_of text.now }
{
    let number = number_64(16, text)?;
    let digits = word_digits(number);
    if digits.as_slice() == text {
        Some(number)
    } else {
        None
    }
}

/// Bytes as a text, where they are one.
pub(crate) fn text_of(bytes: &[u8]) -> Option<&str>
    ensures { option_map (λ text. text.now) result ≡ text_of bytes.now }
{
    match str::from_utf8(bytes) {
        Ok(text) => Some(text),
        Err(_) => None,
    }
}

/// Whether a name of assembly may begin with a byte.
fn is_name_start(byte: u8) -> bool
    ensures { result ≡ is_name_start byte }
{
    matches!(byte, b'A'..=b'Z' | b'a'..=b'z' | b'_' | b'.' | b'$')
}

/// Whether it may go on with a byte.
fn is_name_byte(byte: u8) -> bool
    ensures { result ≡ is_name_byte byte }
{
    is_name_start(byte) || byte.is_ascii_digit()
}

/// Whether each byte may be of a name.
fn are_name_bytes(name: &[u8]) -> bool
    ensures { result ≡ list_all is_name_byte name.now }
{
    name.iter().all(|byte| is_name_byte(*byte))
}

/// Whether a symbol may have this name.
fn is_symbol(name: &[u8]) -> bool
    ensures { result ≡ is_symbol name.now }
{
    match name {
        [] => false,
        [first, ..] => is_name_start(*first) && are_name_bytes(name),
    }
}

/// The name of a symbol.
pub(crate) fn symbol_of(name: &[u8]) -> Option<&str>
    ensures { option_map (λ text. text.now) result ≡ symbol_of name.now }
{
    if is_symbol(name) { text_of(name) } else { None }
}
