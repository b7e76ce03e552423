//! Sections: the chunk that a file goes on in.
#![tactic(auto, unfolding(crate::proofs::Unfold::sections))]

ghost use Rattle.std.specs.Prelude.{◌≡◌};
ghost use Rattle.asm_chunks.specs.Chunks.{Fills, Numbers, chunks_parts};
ghost use Rattle.asm_chunks.specs.Sections.{
  Adds,
  chunk_kind,
  opening_chunk,
  own_chunk,
  kind_of,
  kind_in,
  added,
  entered,
  begun,
};

use crate::chunks::Chunks;
use crate::fault::ChunkFault;
use asm_layout::{Chunk, ChunkKind};
use asm_names::SectionKind;
use std::alloc::Global;

/// The kind of the chunks of a section of a kind.
fn chunk_kind(kind: SectionKind) -> ChunkKind
    ensures { result ≡ chunk_kind kind }
{
    match kind {
        SectionKind::Code => ChunkKind::Code,
        SectionKind::ReadOnly => ChunkKind::ReadOnly,
        SectionKind::ReadWrite => ChunkKind::ReadWrite,
        SectionKind::Zeros => ChunkKind::Zeros,
        SectionKind::Dropped => ChunkKind::Dropped,
    }
}

/// A chunk with nothing in it. Instructions have 4 bytes, at multiples of 4.
fn opening_chunk(kind: ChunkKind) -> Chunk
    ensures { result ≡ opening_chunk kind }
{
    let align = match kind {
        ChunkKind::Code => 4,
        _ => 1,
    };
    Chunk {
        kind,
        size: 0,
        align,
    }
}

impl Chunks {
    /// The chunk that this file puts into a section, if it has begun one.
    fn own_chunk(&self, section: u32) -> Option<u32>
        ensures { result ≡ own_chunk (chunks_parts self.now) section }
    {
        match self.own.get(section as usize) {
            Some(own) => *own,
            None => None,
        }
    }

    /// The kind of a chunk.
    fn kind_of(&self, number: u32) -> ChunkKind
        ensures { result ≡ kind_of (chunks_parts self.now) number }
    {
        match self.chunks.get(number as usize) {
            Some(chunk) => chunk.kind,
            None => ChunkKind::Dropped,
        }
    }

    /// The kind that a section is entered with: what flags say; else as before in this file; else
    /// what its name says.
    fn kind_in(&self, section: u32, flags: Option<SectionKind>, named: SectionKind) -> ChunkKind
        ensures { result ≡ kind_in (chunks_parts self.now) section flags named }
    {
        if let Some(kind) = flags {
            return chunk_kind(kind);
        }
        match self.own_chunk(section) {
            Some(number) => self.kind_of(number),
            None => chunk_kind(named),
        }
    }

    /// Begins a chunk of this file in a section.
    fn add(&mut self, section: u32, kind: ChunkKind) -> Result<u32, ChunkFault>
        ensures { Adds result (chunks_parts self.old) (chunks_parts self.new) section kind }
    {
        let number = self.push(opening_chunk(kind))?;
        if let Some(own) = self.own.get_mut(section as usize) {
            *own = Some(number);
        }
        Ok(number)
    }

    /// Goes on in this file's chunk of a section, by the section's number, which is begun where
    /// there is none yet. `flags` is the kind that flags say, and `named` the one that the name
    /// says. Fails with `Section` where the section has another kind in this file.
    pub fn enter(
        &mut self,
        section: u32,
        flags: Option<SectionKind>,
        named: SectionKind,
    ) -> Result<(), ChunkFault>
        ensures { Fills result (chunks_parts self.new)
            (entered (chunks_parts self.old) section flags named) }
    {
        let kind = self.kind_in(section, flags, named);
        let number = match self.own_chunk(section) {
            Some(number) => {
                if self.kind_of(number).rank() != kind.rank() {
                    return Err(ChunkFault::Section);
                }
                number
            }
            None => self.add(section, kind)?,
        };
        self.before = self.here;
        self.here = number;
        Ok(())
    }

    /// Begins a file, in its section of code of this number, of so many sections. Fails only when
    /// out of memory.
    pub fn begin_file(
        &mut self,
        alloc: Global,
        sections: usize,
        text: u32,
    ) -> Result<(), ChunkFault>
        ensures { Fills result (chunks_parts self.new)
            (begun (chunks_parts self.old) sections text) }
    {
        self.own = vec![in alloc; None; sections]?;
        let number = self.add(text, ChunkKind::Code)?;
        self.here = number;
        self.before = number;
        Ok(())
    }
}
