//! The local labels that statements see.
#![tactic(auto, unfolding(crate::proofs::Unfold::locals))]

ghost use Rattle.std.specs.Prelude.{◌≡◌, map};
ghost use Rattle.asm_tokens.specs.Tokens.{token_parts};
ghost use Rattle.asm_files.specs.Programs.{program_parts};
ghost use Rattle.asm_links.specs.Locals.{
  first_from,
  has_digits,
  label_at,
  last_before,
  local_label,
};

use asm_expressions::text_at;
use asm_files::Program;
use asm_symbols::Local;
use asm_tokens::{Token, without_zeros};

/// Whether a local label has these digits. Zeros before others say nothing.
fn has_digits(tokens: &[Token], digits: &[u8], local: Local) -> bool
    ensures { result ≡ has_digits (map token_parts tokens.now) digits.now local }
{
    without_zeros(digits) == without_zeros(text_at(tokens, local.token))
}

/// The label of a number, if it has these digits.
fn label_at(tokens: &[Token], digits: &[u8], locals: &[Local], at: usize) -> Option<Local>
    ensures { result ≡ label_at (map token_parts tokens.now) digits.now locals.now at }
{
    let local = *locals.get(at)?;
    if has_digits(tokens, digits, local) {
        Some(local)
    } else {
        None
    }
}

/// The last label of these digits of so many.
#[tactic(auto)]
fn last_before(tokens: &[Token], digits: &[u8], locals: &[Local], count: usize) -> Option<Local>
    ensures { result ≡ last_before (map token_parts tokens.now) digits.now locals.now count }
{
    let mut at = count;
    while at > 0 {
        at -= 1;
        let found = label_at(tokens, digits, locals, at);
        if found.is_some() {
            return found;
        }
    }
    None
}

/// The first label of these digits behind so many.
fn first_from(tokens: &[Token], digits: &[u8], locals: &[Local], count: usize) -> Option<Local>
    ensures { result ≡ first_from (map token_parts tokens.now) digits.now locals.now count }
{
    let mut at = count;
    while at < locals.len() {
        let local = locals[at];
        if has_digits(tokens, digits, local) {
            return Some(local);
        }
        at += 1;
    }
    None
}

/// The local label that a token of a statement names: digits and `b`, the last one at or before the
/// statement, its own labels included; or digits and `f`, the first one after it. Files and
/// statements have numbers from 0 on.
pub fn local_label(program: &Program, file: usize, statement: usize, text: &[u8]) -> Option<Local>
    ensures { result ≡ local_label (program_parts program.now) file statement text.now }
{
    let tokens = program.tokens_in(file);
    let locals = program.locals_in(file);
    let count = program.stand_in(file, statement).locals as usize;
    match text {
        [digits @ .., b'b'] => last_before(tokens, digits, locals, count),
        [digits @ .., _] => first_from(tokens, digits, locals, count),
        [] => None,
    }
}
