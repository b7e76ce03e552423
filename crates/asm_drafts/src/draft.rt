//! What the statements so far make.
#![tactic(auto, unfolding(crate::proofs::Unfold::drafts))]

ghost use Rattle.std.specs.Prelude.{◌≡◌, ◌*◌, map};
ghost use Rattle.asm_tokens.specs.Tokens.{token_parts};
ghost use Rattle.asm_drafts.specs.Drafts.{
  Drafts,
  chunk_fault,
  draft_parts,
  ended,
  grown_at,
  is_here,
  new_draft,
};

use asm_chunks::{ChunkFault, ChunkKind, Chunks, new_chunks};
use asm_expressions::fault_at;
use asm_symbols::{Locals, Symbols, no_locals, no_symbols};
use asm_tokens::{AsmFault, AsmFaultKind, Token};
use std::alloc::{AllocError, Global};

/// What the statements so far make: chunks and symbols of all files, and the local labels of the
/// file that is read.
#[derive(Drop)]
pub struct Draft<'a> {
    pub chunks: Chunks,
    pub symbols: Symbols<'a>,
    pub locals: Locals<'a>,
}

/// Before the first file.
pub fn new_draft<'a>(alloc: Global) -> Draft<'a>
    ensures { draft_parts result ≡ new_draft }
{
    Draft {
        chunks: new_chunks(alloc),
        symbols: no_symbols(alloc),
        locals: no_locals(alloc),
    }
}

/// Why a chunk can't have what a statement puts into it, at the token of a number.
pub(crate) fn chunk_fault(tokens: &[Token], at: usize, fault: ChunkFault) -> AsmFault
    ensures { result ≡ chunk_fault (map token_parts tokens.now) at fault }
{
    match fault {
        ChunkFault::Section => fault_at(tokens, AsmFaultKind::Section, at),
        ChunkFault::Size => fault_at(tokens, AsmFaultKind::Size, at),
        ChunkFault::NoMemory => AsmFault::from(AllocError),
    }
}

/// The fault of a statement that can't be read to its end.
pub(crate) fn end(fault: Option<AsmFault>) -> Result<(), AsmFault>
    ensures { result ≡ ended fault }
{
    match fault {
        Some(fault) => Err(fault),
        None => Ok(()),
    }
}

impl Draft<'_> {
    /// Whether the file goes on in a chunk of this kind.
    pub(crate) fn is_here(&self, kind: ChunkKind) -> bool
        ensures { result ≡ is_here (draft_parts self.now) kind }
    {
        self.chunks.here().kind.rank() == kind.rank()
    }

    /// Puts so many bytes into the chunk that the file goes on in. Fails with `Size`, at the token
    /// of a number, where it would have too many.
    pub(crate) fn grow(&mut self, tokens: &[Token], at: usize, count: usize) -> Result<(), AsmFault>
        ensures { Drafts result (draft_parts self.new)
            (grown_at (map token_parts tokens.now) at count (draft_parts self.old)) }
    {
        match self.chunks.grow_bytes(count) {
            Ok(()) => Ok(()),
            Err(fault) => Err(chunk_fault(tokens, at, fault)),
        }
    }

    /// Puts so many instructions there.
    pub(crate) fn grow_code(
        &mut self,
        tokens: &[Token],
        at: usize,
        count: usize,
    ) -> Result<(), AsmFault>
        ensures { Drafts result (draft_parts self.new)
            (grown_at (map token_parts tokens.now) at (4 * count) (draft_parts self.old)) }
    {
        match self.chunks.grow(4, count) {
            Ok(()) => Ok(()),
            Err(fault) => Err(chunk_fault(tokens, at, fault)),
        }
    }
}
