//! Where statements stand.
#![tactic(auto, unfolding(crate::proofs::Unfold::stands))]

ghost use Rattle.std.specs.Prelude.{◌≡◌, IfOk, map};
ghost use Rattle.asm_tokens.specs.Tokens.{token_parts};
ghost use Rattle.asm_statements.specs.Statements.{statement_parts};
ghost use Rattle.asm_drafts.specs.Drafts.{draft_parts};
ghost use Rattle.asm_files.specs.Stands.{
  Stands,
  opening_of,
  closing_of,
  statement_stood,
};

use asm_drafts::{Draft, Entry};
use asm_statements::Statement;
use asm_tokens::{AsmFault, Token};
use std::alloc::{AllocError, Global};

/// Where a statement stands, after its labels: so many bytes from the beginning of the chunk that
/// its file goes on in.
#[derive(Clone, Copy, Debug, PartialEq, Eq)]
pub struct Stand {
    /// The number of the chunk.
    pub chunk: u32,
    pub offset: u32,
    /// The bytes of the same chunk behind the statement.
    pub end: u32,
    /// How many local labels the file has there, the statement's own among them.
    pub locals: u32,
    /// The number that is known while the file is read, and matters later: the constant of `li`, or
    /// the byte of padding and of bytes that are the same. Else 0.
    pub value: u64,
}

/// Where a file is, before a statement's body puts anything there.
fn opening_of(draft: &Draft, value: u64) -> Result<Stand, AllocError>
    ensures { IfOk result (λ stand. stand ≡ opening_of (draft_parts draft.now) value) }
{
    let Ok(locals) = u32::try_from(draft.locals.places.len()) else {
        return Err(AllocError);
    };
    let size = draft.chunks.here().size;
    Ok(Stand {
        chunk: draft.chunks.here,
        offset: size,
        end: size,
        locals,
        value,
    })
}

/// The same, once the body has put there what it puts.
fn closing_of(draft: &Draft, stand: Stand) -> Stand
    ensures { result ≡ closing_of (draft_parts draft.now) stand }
{
    let end = match draft.chunks.chunks.get(stand.chunk as usize) {
        Some(chunk) => chunk.size,
        None => 0,
    };
    Stand {
        chunk: stand.chunk,
        offset: stand.offset,
        end,
        locals: stand.locals,
        value: stand.value,
    }
}

/// Puts the statement of a number in its file, and says where it stands. `entry` is the section
/// that it names, if it names one. Fails at the first token at which it can't go on.
pub(crate) fn put_statement<'a>(
    alloc: Global,
    draft: &mut Draft<'a>,
    tokens: &[Token<'a>],
    number: usize,
    statement: &Statement,
    entry: Entry,
) -> Result<Stand, AsmFault>
    ensures { Stands result (draft_parts draft.new) (statement_stood (map token_parts tokens.now)
        (draft_parts draft.old) number (statement_parts statement.now) entry) }
{
    draft.put_labels(tokens, statement.first, statement.labels)?;
    let value = draft.kept_number(alloc, tokens, statement)?;
    let stand = opening_of(draft, value)?;
    draft.put_body(alloc, tokens, number, statement, entry)?;
    Ok(closing_of(draft, stand))
}
