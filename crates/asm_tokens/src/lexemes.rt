//! What a text begins with: a token, or what is between tokens.
#![tactic(auto, using(crate::proofs::Rulesets::cuts), unfolding(crate::proofs::Unfold::lexemes))]

ghost use Rattle.std.specs.Prelude.{◌≡◌, ◌≤◌, ◌+◌, ◌-◌, IfSome, length};
ghost use Rattle.asm_tokens.specs.Lexemes.{
  mark_of,
  comment_end,
  character_lexeme,
  closed_character,
  string_lexeme,
  number_lexeme,
  mark_lexeme,
  hash_lexeme,
  begins,
  ends_comment,
  other_lexeme,
  lexeme_by,
  slash_lexeme,
  lexeme_of,
  Within,
};

use crate::bytes::{blank_count, is_blank, is_name_start, line_count, name_count, skipped};
use crate::escapes::escape_of;
use crate::numbers::number_kind;
use crate::strings::{StringEnd, string_end};
use crate::token::{Mark, TokenKind};

/// What a text begins with: its first byte and so many bytes more.
#[derive(Clone, Copy)]
pub enum Lexeme {
    /// Blanks or a comment.
    Blank(usize),
    /// A token.
    Token(TokenKind, usize),
    /// Neither, which shows so many bytes further on.
    Bad(usize),
}

/// The mark of one byte.
fn mark_of(byte: u8) -> Option<Mark>
    ensures { result ≡ mark_of byte }
{
    match byte {
        b',' => Some(Mark::Comma),
        b'(' => Some(Mark::Open),
        b')' => Some(Mark::Close),
        b'+' => Some(Mark::Plus),
        b'-' => Some(Mark::Minus),
        b'*' => Some(Mark::Star),
        b'/' => Some(Mark::Slash),
        b'%' => Some(Mark::Percent),
        b'&' => Some(Mark::And),
        b'|' => Some(Mark::Or),
        b'^' => Some(Mark::Caret),
        b'!' => Some(Mark::Bang),
        b'~' => Some(Mark::Tilde),
        b':' => Some(Mark::Colon),
        b'=' => Some(Mark::Equals),
        b'@' => Some(Mark::At),
        _ => None,
    }
}

/// Whether a text begins with a byte.
fn begins(byte: u8, text: &[u8]) -> bool
    ensures { result ≡ begins byte text.now }
{
    !text.is_empty() && text[0] == byte
}

/// A mark, of two bytes or one.
fn mark_lexeme(byte: u8, after: &[u8]) -> Lexeme
    ensures value { result ≡ mark_lexeme byte after.now }
    ensures within { Within (length after.now) result }
{
    let twice = begins(byte, after);
    match byte {
        b'<' if twice => Lexeme::Token(TokenKind::Mark(Mark::ShiftLeft), 1),
        b'>' if twice => Lexeme::Token(TokenKind::Mark(Mark::ShiftRight), 1),
        _ => match mark_of(byte) {
            Some(mark) => Lexeme::Token(TokenKind::Mark(mark), 0),
            None => Lexeme::Bad(0),
        },
    }
}

/// Whether a text begins with the end of a comment.
fn ends_comment(text: &[u8]) -> bool
    ensures { result ≡ ends_comment text.now }
{
    text.len() >= 2 && text[0] == b'*' && text[1] == b'/'
}

/// Where the first `*/` of a text is.
fn comment_end(text: &[u8]) -> Option<usize>
    ensures value { result ≡ comment_end text.now }
    ensures within { IfSome result (λ n. n + 2 ≤ length text.now) }
{
    let mut rest = text;
    while !rest.is_empty() {
        if ends_comment(rest) {
            return Some(text.len() - rest.len());
        }
        rest = skipped(rest, 1);
    }
    None
}

/// What begins with `/`: a comment, or a mark.
fn slash_lexeme(after: &[u8]) -> Lexeme
    ensures value { result ≡ slash_lexeme after.now }
    ensures within { Within (length after.now) result }
{
    if begins(b'/', after) {
        return Lexeme::Blank(line_count(after));
    }
    if !begins(b'*', after) {
        return Lexeme::Token(TokenKind::Mark(Mark::Slash), 0);
    }
    match comment_end(skipped(after, 1)) {
        Some(end) => Lexeme::Blank(end + 3),
        None => Lexeme::Bad(0),
    }
}

/// What begins with `#`: a request where the line is blank before it, else a comment.
fn hash_lexeme(opens: bool, after: &[u8]) -> Lexeme
    ensures value { result ≡ hash_lexeme opens after.now }
    ensures within { Within (length after.now) result }
{
    let more = line_count(after);
    let asks = begins(b'@', after);
    if opens && asks {
        Lexeme::Token(TokenKind::Request, more)
    } else {
        Lexeme::Blank(more)
    }
}

/// A number, or the number of a local label.
fn number_lexeme(text: &[u8]) -> Lexeme
    ensures value { result ≡ number_lexeme text.now }
    ensures within { Within (length text.now - 1) result }
{
    let word = &text[..name_count(text)];
    match number_kind(word) {
        Some(kind) => Lexeme::Token(kind, word.len().saturating_sub(1)),
        None => Lexeme::Bad(0),
    }
}

/// A character, where a quote is at this place after the first.
fn closed_character(byte: u8, place: usize, after: &[u8]) -> Lexeme
    ensures value { result ≡ closed_character byte place after.now }
    ensures within { Within (length after.now) result }
{
    if place < after.len() && after[place] == b'\'' {
        Lexeme::Token(TokenKind::Number(Some(u64::from(byte))), place + 1)
    } else {
        Lexeme::Bad(0)
    }
}

/// What begins with a quote: a character.
fn character_lexeme(after: &[u8]) -> Lexeme
    ensures value { result ≡ character_lexeme after.now }
    ensures within { Within (length after.now) result }
{
    match after {
        [b'\\', text @ ..] => match escape_of(text) {
            Some(escape) => closed_character(escape.byte, escape.length + 1, after),
            None => Lexeme::Bad(1),
        },
        [byte @ b' '..=b'~', ..] => closed_character(*byte, 1, after),
        _ => Lexeme::Bad(0),
    }
}

/// What begins with a double quote: a string.
fn string_lexeme(after: &[u8]) -> Lexeme
    ensures value { result ≡ string_lexeme after.now }
    ensures within { Within (length after.now) result }
{
    match string_end(after) {
        StringEnd::Closed(count) => Lexeme::Token(TokenKind::String, count + 1),
        StringEnd::Bad(count) => Lexeme::Bad(count + 1),
        StringEnd::Open => Lexeme::Bad(0),
    }
}

/// What begins with another byte: blanks, a name or a mark.
fn other_lexeme(byte: u8, after: &[u8]) -> Lexeme
    ensures value { result ≡ other_lexeme byte after.now }
    ensures within { Within (length after.now) result }
{
    if is_blank(byte) {
        return Lexeme::Blank(blank_count(after));
    }
    if is_name_start(byte) {
        return Lexeme::Token(TokenKind::Name, name_count(after));
    }
    mark_lexeme(byte, after)
}

/// What begins with a byte, which is the first of a text: so many bytes come after it.
fn lexeme_by(opens: bool, byte: u8, text: &[u8], after: &[u8]) -> Lexeme
    requires { length text.now ≡ length after.now + 1 }
    ensures value { result ≡ lexeme_by opens byte text.now after.now }
    ensures within { Within (length after.now) result }
{
    match byte {
        b'\n' | b';' => Lexeme::Token(TokenKind::End, 0),
        b'#' => hash_lexeme(opens, after),
        b'/' => slash_lexeme(after),
        b'\'' => character_lexeme(after),
        b'"' => string_lexeme(after),
        b'0'..=b'9' => number_lexeme(text),
        _ => other_lexeme(byte, after),
    }
}

/// What a text begins with. `opens`: whether its line has only blanks before it.
pub fn lexeme_of(opens: bool, text: &[u8]) -> Lexeme
    requires { 1 ≤ length text.now }
    ensures value { result ≡ lexeme_of opens text.now }
    ensures within { Within (length text.now - 1) result }
{
    lexeme_by(opens, text[0], text, skipped(text, 1))
}
