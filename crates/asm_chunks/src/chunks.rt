//! The chunks so far, and where the file is that is read.
#![tactic(auto, unfolding(crate::proofs::Unfold::chunks))]

ghost use Rattle.std.specs.Prelude.{◌≡◌, OnOk};
ghost use Rattle.asm_chunks.specs.Chunks.{
  Fills,
  Numbers,
  chunks_parts,
  no_chunks,
  here_of,
  with_here,
  with_previous,
  with_common,
};

use crate::fault::ChunkFault;
use asm_layout::{Chunk, ChunkKind};
use std::alloc::Global;

/// The chunks of all files so far, by their numbers, and where the file is that is read.
#[derive(Drop)]
pub struct Chunks {
    pub chunks: Vec<Chunk>,
    /// The chunk that this file puts into each section, by the section's number.
    pub own: Vec<Option<u32>>,
    /// The chunk that the file goes on in.
    pub here: u32,
    /// The chunk before the last change.
    pub before: u32,
}

/// No chunk.
pub fn new_chunks(alloc: Global) -> Chunks
    ensures { chunks_parts result ≡ no_chunks }
{
    Chunks {
        chunks: Vec::new(alloc),
        own: Vec::new(alloc),
        here: 0,
        before: 0,
    }
}

impl Chunks {
    /// The chunk that the file goes on in.
    pub fn here(&self) -> Chunk
        ensures { result ≡ here_of (chunks_parts self.now) }
    {
        match self.chunks.get(self.here as usize) {
            Some(chunk) => *chunk,
            None => Chunk {
                kind: ChunkKind::Dropped,
                size: 0,
                align: 0,
            },
        }
    }

    /// Another chunk in the place of the one that the file goes on in.
    pub(crate) fn put_here(&mut self, chunk: Chunk)
        ensures { chunks_parts self.new ≡ with_here (chunks_parts self.old) chunk }
    {
        if let Some(here) = self.chunks.get_mut(self.here as usize) {
            *here = chunk;
        }
    }

    /// One more chunk. Gives its number. Fails only when out of memory.
    pub(crate) fn push(&mut self, chunk: Chunk) -> Result<u32, ChunkFault>
        ensures { Numbers result (chunks_parts self.old) (chunks_parts self.new) chunk }
    {
        let Ok(number) = u32::try_from(self.chunks.len()) else {
            return Err(ChunkFault::NoMemory);
        };
        self.chunks.push(chunk)?;
        Ok(number)
    }

    /// Goes back to the chunk before the last change.
    pub fn go_back(&mut self)
        ensures { chunks_parts self.new ≡ with_previous (chunks_parts self.old) }
    {
        let here = self.here;
        self.here = self.before;
        self.before = here;
    }

    /// The zeros of a common symbol, in a chunk of their own, whose number it gives. Fails only
    /// when out of memory.
    pub fn add_common(&mut self, size: u32, align: u32) -> Result<u32, ChunkFault>
        ensures { Numbers result (chunks_parts self.old) (chunks_parts self.new)
            (with_common size align) }
    {
        self.push(Chunk {
            kind: ChunkKind::Common,
            size,
            align,
        })
    }
}
