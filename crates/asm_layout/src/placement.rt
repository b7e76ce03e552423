//! Chunks one after another, each at the next multiple of its alignment.
#![tactic(auto, unfolding(crate::proofs::Unfold::placements))]

ghost use Rattle.std.specs.Prelude.{◌≡◌, ◌<◌};
ghost use Rattle.asm_layout.specs.Placement.{
  padding,
  next_multiple,
  alignment_of,
  placed,
  placed_if,
  all_placed,
};

use crate::chunk::{Chunk, ChunkKind};

/// How many bytes are between an address and the next multiple of a unit.
pub fn padding(addr: u64, unit: u64) -> u64
    requires { 0 < unit }
    ensures { result ≡ padding addr unit }
{
    let rest = addr % unit;
    if rest == 0 { 0 } else { unit - rest }
}

/// The next multiple of a unit, modulo 2^64.
pub fn next_multiple(addr: u64, unit: u64) -> u64
    requires { 0 < unit }
    ensures { result ≡ next_multiple addr unit }
{
    addr.wrapping_add(padding(addr, unit))
}

/// What a chunk's address is a multiple of. Code without an instruction takes no place.
fn alignment_of(chunk: Chunk) -> u64
    ensures value { result ≡ alignment_of chunk }
    ensures unit { 0 < result }
{
    if chunk.kind.rank() == 0 && chunk.size == 0 {
        return 1;
    }
    u64::from(chunk.align).max(1)
}

/// Where chunks begin, by their numbers, and where the next one may.
#[derive(Drop)]
pub(crate) struct Placement {
    pub addresses: Vec<u64>,
    pub end: u64,
}

impl Placement {
    ghost use Rattle.asm_layout.specs.Placement.{parts_of};

    /// One more chunk, by its number.
    fn place(&mut self, number: u32, chunk: Chunk)
        ensures { parts_of self.new ≡ placed (parts_of self.old) number chunk }
    {
        let start = next_multiple(self.end, alignment_of(chunk));
        if let Some(address) = self.addresses.get_mut(number as usize) {
            *address = start;
        }
        self.end = start.wrapping_add(u64::from(chunk.size));
    }

    /// The chunk of this number, where it is of this kind.
    fn place_if(&mut self, kind: ChunkKind, chunks: &[Chunk], number: u32)
        ensures { parts_of self.new ≡ placed_if kind chunks.now (parts_of self.old) number }
    {
        if let Some(chunk) = chunks.get(number as usize) {
            if chunk.kind.rank() == kind.rank() {
                self.place(number, *chunk);
            }
        }
    }

    /// The chunks of one kind, in this order.
    pub fn place_all(&mut self, kind: ChunkKind, chunks: &[Chunk], order: &[u32])
        ensures { parts_of self.new ≡ all_placed kind chunks.now (parts_of self.old) order.now }
    {
        for number in order {
            self.place_if(kind, chunks, *number);
        }
    }
}
