//! The lines of a file of slices.

ghost use Rattle.std.specs.Prelude.{◌≡◌, ◌==◌, IfOk, map};
ghost use Rattle.std.specs.List.{slice_split};
ghost use Rattle.sample_merges.specs.Lines.{slice_lines};

use std::alloc::{AllocError, Global};

/// What newlines separate. Fails only when out of memory.
fn newline_parts(alloc: Global, text: &[u8]) -> Result<Vec<&[u8]>, AllocError>
    ensures { IfOk result (λ parts.
        map (λ part. part.now) parts.items ≡ slice_split (λ b. b == 0x0A) text.now) }
{
    text.split(|byte| *byte == b'\n').collect(alloc)
}

/// The lines of a text. Fails only when out of memory.
pub fn slice_lines(alloc: Global, text: &[u8]) -> Result<Vec<&[u8]>, AllocError>
    ensures { IfOk result (λ lines.
        map (λ line. line.now) lines.items ≡ slice_lines text.now) }
{
    let Some((last, before)) = text.split_last() else {
        return Ok(Vec::new(alloc));
    };
    if *last == b'\n' {
        newline_parts(alloc, before)
    } else {
        newline_parts(alloc, text)
    }
}
