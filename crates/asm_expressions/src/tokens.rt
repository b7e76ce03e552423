//! Tokens of a file by their numbers, from 0 on.
#![tactic(auto, unfolding(crate::proofs::Unfold::tokens))]

ghost use Rattle.std.specs.Prelude.{◌≡◌, ◌<◌, length, map};
ghost use Rattle.asm_tokens.specs.declared.token.TokenKind.TheVariants.{End};
ghost use Rattle.asm_tokens.specs.Tokens.{token_parts};
ghost use Rattle.asm_expressions.specs.Tokens.{kind_at, text_at, place_at, fault_at};

use asm_tokens::{AsmFault, AsmFaultKind, Place, Token, TokenKind};

/// What the token of a number is; `End` where the file has no such token.
pub fn kind_at(tokens: &[Token], at: usize) -> TokenKind
    ensures is { result ≡ kind_at (map token_parts tokens.now) at }
    ensures room { (result ≡ End → ⊥) → at < length tokens.now }
{
    match tokens.get(at) {
        Some(token) => token.kind,
        None => TokenKind::End,
    }
}

/// The bytes of the token of a number; none where the file has no such token.
pub fn text_at<'a>(tokens: &[Token<'a>], at: usize) -> &'a [u8]
    ensures { result.now ≡ text_at (map token_parts tokens.now) at }
{
    match tokens.get(at) {
        Some(token) => token.text,
        None => &[],
    }
}

/// Where the token of a number begins; 0 and 0 where the file has no such token.
pub fn place_at(tokens: &[Token], at: usize) -> Place
    ensures { result ≡ place_at (map token_parts tokens.now) at }
{
    match tokens.get(at) {
        Some(token) => token.place,
        None => Place { line: 0, column: 0 },
    }
}

/// A fault at the token of a number.
pub fn fault_at(tokens: &[Token], kind: AsmFaultKind, at: usize) -> AsmFault
    ensures { result ≡ fault_at (map token_parts tokens.now) kind at }
{
    AsmFault {
        kind,
        place: place_at(tokens, at),
    }
}
