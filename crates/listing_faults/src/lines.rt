//! The lines of a listing, and what stands for a faulty one.
#![tactic(auto, using(crate::proofs::LineLemmas::lines), unfolding(crate::proofs::Unfold::lines))]

ghost use Rattle.std.specs.Prelude.{◌≡◌, ◌++◌, [], ◌∷◌, IfOk, OnOk, drop, set, slice_index_or};
ghost use Rattle.grammar.specs.Lines.{lines_of};
ghost use Rattle.grammar.specs.Tokens.{texts};
ghost use Rattle.listing_faults.specs.Lines.{left_of, stand_in, text_of, without};

use cheri_model::names::is_instruction;
use grammar::labels::is_label_token;
use grammar::tokens::first_token;
use std::alloc::{AllocError, Global};

/// Adds a line.
fn push_line<'t>(lines: &mut Vec<&'t [u8]>, line: &'t [u8]) -> Result<(), AllocError>
    ensures { OnOk result (texts lines.new.items ≡ texts lines.old.items ++ (line.now ∷ [])) }
{
    lines.push(line)?;
    Ok(())
}

/// The lines of a text. Fails only when out of memory.
pub(crate) fn lines_of<'t>(alloc: Global, text: &'t [u8]) -> Result<Vec<&'t [u8]>, AllocError>
    ensures { IfOk result (λ lines. texts lines.items ≡ lines_of text.now) }
{
    let mut lines = Vec::new(alloc);
    for line in text.split(|byte| *byte == b'\n') {
        push_line(&mut lines, line)?;
    }
    Ok(lines)
}

/// A text without its first byte.
pub(crate) fn after_first(text: &[u8]) -> &[u8]
    ensures { result.now ≡ drop 1 text.now }
{
    match text {
        [] => &[],
        [_, rest @ ..] => rest,
    }
}

/// Lines, each after a newline.
pub(crate) fn joined(alloc: Global, lines: &[&[u8]]) -> Result<Vec<u8>, AllocError>
    ensures { IfOk result (λ text. drop 1 text.items ≡ text_of (texts lines.now)) }
{
    let mut text = Vec::new(alloc);
    for line in lines {
        text.push(b'\n')?;
        text.extend_from_slice(line)?;
    }
    Ok(text)
}

/// What stands for a faulty line: an instruction for one, a label for its own line, and else
/// nothing.
fn stand_in(line: &[u8]) -> &[u8]
    ensures { result.now ≡ stand_in line.now }
{
    let token = first_token(line);
    if is_instruction(token) {
        b"ecall"
    } else if is_label_token(token) {
        token
    } else {
        b""
    }
}

/// The line at a place, and an empty one where there is none.
fn line_at<'t>(lines: &[&'t [u8]], place: usize) -> &'t [u8]
    ensures { result.now ≡ slice_index_or (texts lines.now) place [] }
{
    if place < lines.len() {
        lines[place]
    } else {
        &[]
    }
}

/// Puts a line at a place, if there is one.
fn put_line<'t>(lines: &mut [&'t [u8]], place: usize, line: &'t [u8])
    ensures { texts lines.new ≡ set (texts lines.old) place line.now }
{
    if place < lines.len() {
        lines[place] = line;
    }
}

/// What is left of a faulty line: its stand-in, and nothing where that is what is faulty.
fn left_of(line: &[u8], is_told: bool) -> &[u8]
    ensures { result.now ≡ left_of line.now is_told }
{
    if is_told { b"" } else { stand_in(line) }
}

/// Leaves out the line of this number. `last` is the number of the last one that was told.
pub(crate) fn leave_out(lines: &mut [&[u8]], last: usize, number: usize)
    ensures { texts lines.new ≡ without last number (texts lines.old) }
{
    let place = number.saturating_sub(1);
    let left = left_of(line_at(lines, place), number == last);
    put_line(lines, place, left);
}
