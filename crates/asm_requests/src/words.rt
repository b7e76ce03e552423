//! The words of a request, which blanks part.
#![tactic(auto, using(crate::proofs::Rulesets::words))]

ghost use Rattle.std.specs.Prelude.{
  ◌≡◌,
  ◌+◌,
  ◌<◌,
  ◌^◌,
  ◌≤◌,
  drop,
  IfOk,
  map,
  not,
  length,
  position,
};
ghost use Rattle.std.specs.List.{before_first};
ghost use Rattle.asm_tokens.specs.Bytes.{is_blank};
ghost use Rattle.asm_requests.specs.Words.{word_parts, words_of};

use std::alloc::{AllocError, Global};

/// A word and the column, from 1, at which it begins.
#[derive(Clone, Copy, Debug)]
pub struct Word<'a> {
    pub text: &'a [u8],
    pub column: usize,
}

/// Whether a byte is between words: a space, a tab or a carriage return.
#[tactic(auto, unfolding(asm_tokens::specs::Bytes::is_blank))]
fn is_blank(byte: u8) -> bool
    ensures { result ≡ is_blank byte }
{
    matches!(byte, b' ' | b'\t' | b'\r')
}

/// Where the first blank of a text is.
fn first_blank(text: &[u8]) -> Option<usize>
    ensures { result ≡ position is_blank text.now }
{
    text.iter().position(|byte| is_blank(*byte))
}

/// A text up to its first blank.
fn first_word(text: &[u8]) -> &[u8]
    ensures value { result.now ≡ before_first is_blank text.now }
    ensures bound { length result.now ≤ length text.now }
{
    match first_blank(text) {
        Some(end) => &text[..end],
        None => text,
    }
}

/// A text behind so many bytes.
fn after(text: &[u8], count: usize) -> &[u8]
    requires { count ≤ length text.now }
    ensures { result.now ≡ drop count text.now }
{
    &text[count..]
}

/// A text behind its first byte.
fn after_first(text: &[u8]) -> &[u8]
    requires { 1 ≤ length text.now }
    ensures { result.now ≡ drop 1 text.now }
{
    after(text, 1)
}

/// The words of a text that begins at a column. Fails only when out of memory.
pub fn words_of<'a>(
    alloc: Global,
    text: &'a [u8],
    column: usize,
) -> Result<Vec<Word<'a>>, AllocError>
    requires { column + length text.now < 2 ^ 64 }
    ensures { IfOk result (λ words. map word_parts words.items ≡ words_of column text.now) }
{
    let mut words = Vec::new(alloc);
    let (mut rest, mut at) = (text, column);
    while !rest.is_empty() {
        let word = first_word(rest);
        if word.is_empty() {
            rest = after_first(rest);
            at += 1;
            continue;
        }
        words.push(Word {
            text: word,
            column: at,
        })?;
        rest = after(rest, word.len());
        at += word.len();
    }
    Ok(words)
}
