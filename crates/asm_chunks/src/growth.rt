//! What is put into the chunk that a file goes on in.
#![tactic(auto, unfolding(crate::proofs::Unfold::growth))]

ghost use Rattle.std.specs.Prelude.{◌≡◌, ◌*◌};
ghost use Rattle.asm_chunks.specs.Chunks.{Fills, chunks_parts};
ghost use Rattle.asm_chunks.specs.Growth.{
  Pads,
  limit_of,
  grown,
  raised,
  padding_of,
  padded,
};

use crate::chunks::Chunks;
use crate::fault::ChunkFault;
use asm_layout::{Chunk, ChunkKind, padding};

/// The most bytes of a chunk in memory.
pub const MAX_CHUNK: u32 = 1_048_576;

/// The most bytes of a chunk of code: 16,384 instructions.
pub const MAX_CODE_CHUNK: u32 = 65_536;

/// The most bytes of a chunk of a kind.
fn limit_of(kind: ChunkKind) -> u32
    ensures { result ≡ limit_of kind }
{
    match kind {
        ChunkKind::Code => MAX_CODE_CHUNK,
        _ => MAX_CHUNK,
    }
}

/// How many bytes of padding go to the end of a chunk: none where they are more than the most.
fn padding_of(chunk: Chunk, unit: u32, most: Option<u32>) -> u32
    ensures { result ≡ padding_of chunk unit most }
{
    let pad = padding(u64::from(chunk.size), u64::from(unit).max(1)) as u32;
    match most {
        Some(most) if most < pad => 0,
        _ => pad,
    }
}

impl Chunks {
    /// Puts so many items of a width in bytes into the chunk that the file goes on in. Fails with
    /// `Size` where it would have too many bytes, and then it has what it had.
    pub fn grow(&mut self, width: u32, count: usize) -> Result<(), ChunkFault>
        ensures { Fills result (chunks_parts self.new)
            (grown (chunks_parts self.old) (width * count)) }
    {
        let mut here = self.here();
        let size = u128::from(here.size) + u128::from(width) * count as u128;
        if size > u128::from(limit_of(here.kind)) {
            return Err(ChunkFault::Size);
        }
        here.size = size as u32;
        self.put_here(here);
        Ok(())
    }

    /// Puts so many bytes there, as `grow` does.
    pub fn grow_bytes(&mut self, count: usize) -> Result<(), ChunkFault>
        ensures { Fills result (chunks_parts self.new) (grown (chunks_parts self.old) count) }
    {
        self.grow(1, count)
    }

    /// Raises the alignment of the chunk that the file goes on in.
    pub fn raise(&mut self, unit: u32)
        ensures { chunks_parts self.new ≡ raised (chunks_parts self.old) unit }
    {
        let mut here = self.here();
        here.align = here.align.max(unit);
        self.put_here(here);
    }

    /// Pads to a multiple of a unit, unless that takes more than the most bytes, and gives how many
    /// bytes that took. The alignment rises either way. Fails with `Size` as `grow` does.
    pub fn pad(&mut self, unit: u32, most: Option<u32>) -> Result<u32, ChunkFault>
        ensures { Pads result (chunks_parts self.old) (chunks_parts self.new) unit most }
    {
        let pad = padding_of(self.here(), unit, most);
        self.raise(unit);
        self.grow(pad, 1)?;
        Ok(pad)
    }
}
