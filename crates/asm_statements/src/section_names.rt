//! The names of sections: a string, or names, numbers and `-` with nothing between.
#![tactic(auto, unfolding(crate::proofs::Unfold::section_names))]

ghost use Rattle.std.specs.Prelude.{◌≡◌, ◌++◌, ◌+◌, ◌≤◌, OnOk, drop, length, map};
ghost use Rattle.asm_tokens.specs.Tokens.{token_parts};
ghost use Rattle.asm_statements.specs.SectionNames.{
  goes_on,
  is_part,
  joins,
  name_end,
  parts_after,
  section_name,
  texts_between,
};

use asm_expressions::{kind_at, text_at};
use asm_tokens::{Mark, Token, TokenKind, push_string};
use std::alloc::AllocError;

/// Whether a token may be a part of a name.
fn is_part(kind: TokenKind) -> bool
    ensures { result ≡ is_part kind }
{
    matches!(
        kind,
        TokenKind::Name | TokenKind::Number(_) | TokenKind::Mark(Mark::Minus)
    )
}

/// Whether a token begins right where another one ends.
fn joins(before: Token, after: Token) -> bool
    ensures { result ≡ joins (token_parts before.entry) (token_parts after.entry) }
{
    if before.place.line != after.place.line {
        return false;
    }
    match after.place.column.checked_sub(before.place.column) {
        Some(apart) => apart == before.text.len(),
        None => false,
    }
}

/// Whether a name goes on with a token after another one.
fn goes_on(before: Token, after: Token) -> bool
    ensures { result ≡ goes_on (token_parts before.entry) (token_parts after.entry) }
{
    is_part(after.kind) && joins(before, after)
}

/// How many parts of a name follow its first one, with nothing between: of tokens from a number on.
fn parts_after(first: Token, tokens: &[Token], start: usize) -> usize
    requires { start ≤ length tokens.now }
    ensures is { result
        ≡ parts_after (token_parts first.entry) (drop start (map token_parts tokens.now)) }
    ensures room { start + result ≤ length tokens.now }
{
    let mut before = first;
    let mut at = start;
    while at < tokens.len() {
        let token = tokens[at];
        if !goes_on(before, token) {
            return at - start;
        }
        before = token;
        at += 1;
    }
    at - start
}

/// The number of the token after a section's name, which begins with the token of a number.
pub(crate) fn name_end(tokens: &[Token], at: usize) -> usize
    requires { at ≤ length tokens.now }
    ensures is { result ≡ name_end (map token_parts tokens.now) at }
    ensures room { result ≤ length tokens.now }
{
    if at >= tokens.len() {
        return at;
    }
    let first = tokens[at];
    if let TokenKind::String = first.kind {
        return at + 1;
    }
    if !is_part(first.kind) {
        return at;
    }
    at + 1 + parts_after(first, tokens, at + 1)
}

/// Appends the texts of the tokens from the first number on before the second.
fn push_texts(
    out: &mut Vec<u8>,
    tokens: &[Token],
    first: usize,
    end: usize,
) -> Result<(), AllocError>
    ensures { OnOk result (out.new.items
        ≡ out.old.items ++ texts_between (map token_parts tokens.now) first end) }
{
    let mut at = first;
    while at < end {
        if at >= tokens.len() {
            return Ok(());
        }
        out.extend_from_slice(tokens[at].text)?;
        at += 1;
    }
    Ok(())
}

/// Appends a section's name, which is the tokens from the first number on before the second.
pub fn push_section_name(
    out: &mut Vec<u8>,
    tokens: &[Token],
    first: usize,
    end: usize,
) -> Result<(), AllocError>
    ensures { OnOk result (out.new.items
        ≡ out.old.items ++ section_name (map token_parts tokens.now) first end) }
{
    if let TokenKind::String = kind_at(tokens, first) {
        return push_string(out, text_at(tokens, first));
    }
    push_texts(out, tokens, first, end)
}
