//! The tokens of a file.
#![tactic(auto, using(crate::proofs::Rulesets::cuts))]

ghost use Rattle.std.specs.Prelude.{◌≡◌, ◌+◌, ◌^◌, ◌<◌, map, take, drop, length, slice_index};
ghost use Rattle.asm_tokens.specs.Faults.{Gives};
ghost use Rattle.asm_tokens.specs.Places.{place_after};
ghost use Rattle.asm_tokens.specs.Tokens.{tokens_of, token_parts, opens_after};

use crate::bytes::{is_blank, skipped, taken};
use crate::fault::{AsmFault, AsmFaultKind};
use crate::lexemes::{Lexeme, lexeme_of};
use crate::place::Place;
use crate::token::{Token, TokenKind};
use std::alloc::Global;

/// Whether a line has only blanks up to the end of what begins with a byte.
fn opens_after(opens: bool, byte: u8) -> bool
    ensures { result ≡ opens_after opens byte }
{
    byte == b'\n' || (opens && is_blank(byte))
}

/// Where a reader is in a file: what is left, its place, and whether its line has only blanks so
/// far.
#[derive(Clone, Copy)]
struct Cursor<'a> {
    rest: &'a [u8],
    place: Place,
    opens: bool,
}

impl<'a> Cursor<'a> {
    /// The same after the next byte and so many more.
    fn after(self, more: usize) -> Cursor<'a>
        requires within { more < length self.rest.now }
        requires line { self.place.line + length self.rest.now < 2 ^ 64 }
        requires column { self.place.column + length self.rest.now < 2 ^ 64 }
        ensures place { result.place
            ≡ place_after self.entry.place (take (more + 1) self.entry.rest.now) }
        ensures opens { result.opens
            ≡ opens_after self.entry.opens (slice_index self.entry.rest.now 0) }
        ensures rest { result.rest.now ≡ drop (more + 1) self.entry.rest.now }
    {
        let rest = self.rest;
        Cursor {
            rest: skipped(rest, more + 1),
            place: self.place.after(taken(rest, more + 1)),
            opens: opens_after(self.opens, rest[0]),
        }
    }
}

/// The tokens of a file, the last of which is an `End`. Fails with `Byte` at the first place where
/// no token begins, or where one that began can't be ended.
pub fn read_tokens<'a>(alloc: Global, text: &'a [u8]) -> Result<Vec<Token<'a>>, AsmFault>
    ensures { Gives (λ tokens. map token_parts tokens.items) result (tokens_of text.now) }
{
    let mut tokens = Vec::new(alloc);
    let mut cursor = Cursor {
        rest: text,
        place: Place::start(),
        opens: true,
    };
    while !cursor.rest.is_empty() {
        let (rest, place) = (cursor.rest, cursor.place);
        match lexeme_of(cursor.opens, rest) {
            Lexeme::Blank(more) => {
                cursor = cursor.after(more);
                continue;
            }
            Lexeme::Token(kind, more) => {
                let text = taken(rest, more + 1);
                tokens.push(Token { kind, text, place })?;
                cursor = cursor.after(more);
            }
            Lexeme::Bad(more) => {
                let kind = AsmFaultKind::Byte;
                let front = taken(rest, more);
                let place = place.after(front);
                return Err(AsmFault { kind, place });
            }
        }
    }
    tokens.push(Token {
        kind: TokenKind::End,
        text: cursor.rest,
        place: cursor.place,
    })?;
    Ok(tokens)
}
