//! Addresses of places.
#![tactic(auto, unfolding(crate::proofs::Unfold::places))]

ghost use Rattle.std.specs.Prelude.{◌≡◌};
ghost use Rattle.asm_places.specs.Places.{
  address_in,
  address_of,
  apart,
  chunk_address,
  kind_of,
  places_parts,
  target_of,
};

use asm_layout::{Chunk, ChunkKind};
use asm_tokens::AsmFaultKind;
use asm_values::{Location, Value};
use cheri_model::{CODE_BASE, INSTRUCTION_BYTES};

/// The chunks of a program, and where each begins.
#[derive(Clone, Copy)]
pub struct Places<'a> {
    pub chunks: &'a [Chunk],
    pub addresses: &'a [u64],
}

impl Places<'_> {
    /// The kind of a chunk.
    pub fn kind_of(&self, chunk: u32) -> ChunkKind
        ensures { result ≡ kind_of (places_parts self.now) chunk }
    {
        match self.chunks.get(chunk as usize) {
            Some(chunk) => chunk.kind,
            None => ChunkKind::Dropped,
        }
    }

    /// Where a chunk begins, if it is kept.
    fn chunk_address(&self, chunk: u32) -> Option<u64>
        ensures { result ≡ chunk_address (places_parts self.now) chunk }
    {
        if self.kind_of(chunk).rank() == ChunkKind::Dropped.rank() {
            return None;
        }
        self.addresses.get(chunk as usize).copied()
    }

    /// The address of a place in a chunk, if the chunk is kept.
    pub fn address_in(&self, chunk: u32, offset: u64) -> Option<u64>
        ensures { result ≡ address_in (places_parts self.now) chunk offset }
    {
        let start = self.chunk_address(chunk)?;
        Some(start.wrapping_add(offset))
    }

    /// The number that a value is, a place its address. Fails with `Section` where nothing is kept
    /// of the place's chunk.
    pub fn address_of(&self, value: Value) -> Result<u64, AsmFaultKind>
        ensures { result ≡ address_of (places_parts self.now) value }
    {
        let location = match value {
            Value::Number(number) => return Ok(number),
            Value::At(location) => location,
        };
        match self.address_in(location.chunk, location.offset) {
            Some(address) => Ok(address),
            None => Err(AsmFaultKind::Section),
        }
    }

    /// How far the first of two chunks begins after the second one, if both are kept.
    pub fn apart(&self, to: u32, from: u32) -> Option<u64>
        ensures { result ≡ apart (places_parts self.now) to from }
    {
        let to = self.chunk_address(to)?;
        let from = self.chunk_address(from)?;
        Some(to.wrapping_sub(from))
    }

    /// The number of the instruction that a branch goes to, of a program of so many. The end of
    /// code is one. Fails with `Expression` for a number, with `Section` where nothing is kept of
    /// the place's chunk, and with `Range` for a place that is no instruction.
    pub fn target_of(&self, value: Value, instructions: u64) -> Result<u64, AsmFaultKind>
        ensures { result ≡ target_of (places_parts self.now) value instructions }
    {
        let Value::At(location) = value else {
            return Err(AsmFaultKind::Expression);
        };
        let address = self.address_of(value)?;
        if self.kind_of(location.chunk).rank() != ChunkKind::Code.rank() {
            return Err(AsmFaultKind::Range);
        }
        let offset = address.wrapping_sub(CODE_BASE);
        if offset % INSTRUCTION_BYTES != 0 || offset / INSTRUCTION_BYTES > instructions {
            return Err(AsmFaultKind::Range);
        }
        Ok(offset / INSTRUCTION_BYTES)
    }
}
