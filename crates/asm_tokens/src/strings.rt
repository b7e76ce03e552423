//! Strings: where they end, and the bytes that they mean.
#![tactic(auto, unfolding(crate::specs::Strings::string_byte, crate::specs::Strings::meant_byte))]

ghost use Rattle.std.specs.Prelude.{◌≡◌, ◌≤◌, ◌++◌, IfSome, OnOk, length};
ghost use Rattle.asm_tokens.specs.Strings.{
  string_byte,
  IsInside,
  string_end,
  WithinText,
  between_quotes,
  meant_byte,
  string_of,
};

use crate::bytes::{is_string_byte, skipped};
use crate::escapes::{Escape, escape_of};
use std::alloc::AllocError;

/// How the text of a string ends, after so many bytes.
#[derive(Clone, Copy)]
pub enum StringEnd {
    /// At its quote.
    Closed(usize),
    /// At a byte that can't be in a string, or a bad escape.
    Bad(usize),
    /// At the end of the line.
    Open,
}

/// What a byte of a string is.
#[derive(Clone, Copy)]
enum StringByte {
    /// The string goes on after so many bytes more.
    Inside(usize),
    /// The last quote.
    Quote,
    /// The end of the line.
    Newline,
    /// It can't be in a string, or its escape is none.
    Bad,
}

/// What a byte of a string is, with what comes after it.
fn string_byte(byte: u8, after: &[u8]) -> StringByte
    ensures value { result ≡ string_byte byte after.now }
    ensures within { IsInside (length after.now) result }
{
    match byte {
        b'"' => StringByte::Quote,
        b'\n' => StringByte::Newline,
        b'\\' => match escape_of(after) {
            Some(escape) => StringByte::Inside(escape.length),
            None => StringByte::Bad,
        },
        _ if is_string_byte(byte) => StringByte::Inside(0),
        _ => StringByte::Bad,
    }
}

/// How the text after a string's first quote ends.
pub fn string_end(text: &[u8]) -> StringEnd
    ensures value { result ≡ string_end 0 text.now }
    ensures within { WithinText (length text.now) result }
{
    let mut rest = text;
    while !rest.is_empty() {
        let count = text.len() - rest.len();
        let after = skipped(rest, 1);
        match string_byte(rest[0], after) {
            StringByte::Inside(skip) => rest = skipped(after, skip),
            StringByte::Quote => return StringEnd::Closed(count),
            StringByte::Newline => return StringEnd::Open,
            StringByte::Bad => return StringEnd::Bad(count),
        }
    }
    StringEnd::Open
}

/// What is between the first byte of a text and its last.
fn between_quotes(text: &[u8]) -> &[u8]
    ensures { result.now ≡ between_quotes text.now }
{
    match text {
        [_, inside @ .., _] => inside,
        _ => &[],
    }
}

/// The byte that a string's text begins with, or its escape, and how many bytes more this takes.
/// `None` where a backslash begins no escape, which no string of `read_tokens` has.
fn meant_byte(byte: u8, after: &[u8]) -> Option<Escape>
    ensures value { result ≡ meant_byte byte after.now }
    ensures within { IfSome result (λ escape. escape.length ≤ length after.now) }
{
    if byte == b'\\' {
        escape_of(after)
    } else {
        Some(Escape { byte, length: 0 })
    }
}

/// Appends the bytes that a string means, of which the text has its quotes.
pub fn push_string(out: &mut Vec<u8>, text: &[u8]) -> Result<(), AllocError>
    ensures { OnOk result (out.new.items ≡ out.old.items ++ string_of text.now) }
{
    let mut rest = between_quotes(text);
    while !rest.is_empty() {
        let after = skipped(rest, 1);
        match meant_byte(rest[0], after) {
            Some(escape) => {
                out.push(escape.byte)?;
                rest = skipped(after, escape.length);
            }
            None => return Ok(()),
        }
    }
    Ok(())
}
