//! The tokens of a listing's line.
#![tactic(auto, using(crate::proofs::Rulesets::token), unfolding(crate::proofs::Unfold::tokens))]

ghost use Rattle.std.specs.Prelude.{◌≡◌, OnOk, not, position};
ghost use Rattle.grammar.specs.Tokens.{
  is_blank,
  ends_token,
  after_blanks,
  before_end,
  tokens_of,
  token_at,
  texts,
};

use std::alloc::AllocError;

/// Whether a byte separates tokens.
fn is_blank(byte: u8) -> bool
    ensures { result ≡ is_blank byte }
{
    matches!(byte, b' ' | b'\t' | b',')
}

/// Whether a byte ends a token: a blank, or the beginning of the comment.
fn ends_token(byte: u8) -> bool
    ensures { result ≡ ends_token byte }
{
    is_blank(byte) || byte == b'#'
}

/// Where a line's first byte is that is not blank.
fn token_start(line: &[u8]) -> Option<usize>
    ensures { result ≡ position (λ b. not (is_blank b)) line.now }
{
    line.iter().position(|byte| !is_blank(*byte))
}

/// Where the token ends that a line begins with, if a byte of the line ends it.
fn token_end(line: &[u8]) -> Option<usize>
    ensures { result ≡ position ends_token line.now }
{
    line.iter().position(|byte| ends_token(*byte))
}

/// A line from its first byte on that is not blank.
fn after_blanks(line: &[u8]) -> &[u8]
    ensures { result.now ≡ after_blanks line.now }
{
    match token_start(line) {
        Some(start) => &line[start..],
        None => &[],
    }
}

/// A line up to the end of the token that it begins with.
fn before_end(line: &[u8]) -> &[u8]
    ensures { result.now ≡ before_end line.now }
{
    match token_end(line) {
        Some(end) => &line[..end],
        None => line,
    }
}

/// The first token of a line, and an empty one where there is none.
pub fn first_token(line: &[u8]) -> &[u8]
    ensures { result.now ≡ token_at (tokens_of line.now) 0 }
{
    before_end(after_blanks(line))
}

/// Puts the tokens of a line, without its comment, in place of what the buffer had.
pub fn read_tokens<'a>(line: &'a [u8], tokens: &mut Vec<&'a [u8]>) -> Result<(), AllocError>
    ensures { OnOk result (texts tokens.new.items ≡ tokens_of line.now) }
{
    tokens.clear();
    let mut rest = line;
    loop {
        let start = after_blanks(rest);
        let token = before_end(start);
        if token.is_empty() {
            return Ok(());
        }
        tokens.push(token)?;
        rest = &start[token.len()..];
    }
}

/// The token at a place, and an empty one where there is none.
pub fn token_at<'a>(tokens: &[&'a [u8]], place: usize) -> &'a [u8]
    ensures { result.now ≡ token_at (texts tokens.now) place }
{
    if place < tokens.len() {
        tokens[place]
    } else {
        &[]
    }
}
