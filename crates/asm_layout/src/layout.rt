//! The layout of a program: its code, then in memory the capability table, what is only read, data,
//! zeros and common symbols.
#![tactic(auto, unfolding(crate::proofs::Unfold::layouts))]

ghost use Rattle.std.specs.Prelude.{◌≡◌, IfOk};
ghost use Rattle.asm_layout.specs.Placement.{parts_of};
ghost use Rattle.asm_layout.specs.Layout.{
  LayoutParts,
  layout_parts,
  opening,
  layout_of,
  memory_size,
};

use crate::chunk::{Chunk, ChunkKind};
use crate::placement::{Placement, padding};
use asm_capabilities::table_length;
use cheri_model::{CODE_BASE, RAM_BASE};
use std::alloc::{AllocError, Global};

/// Where everything is.
#[derive(Drop)]
pub struct Layout {
    /// Where each chunk begins, by its number; 0 of one that is kept nowhere.
    pub addresses: Vec<u64>,
    /// Where code ends.
    pub code_end: u64,
    /// Where memory ends that chunks and the capability table take.
    pub memory_end: u64,
}

/// No chunk is placed yet.
fn opening(alloc: Global, count: usize) -> Result<Placement, AllocError>
    ensures { IfOk result (λ placement. parts_of placement ≡ opening count) }
{
    Ok(Placement {
        addresses: vec![in alloc; 0; count]?,
        end: CODE_BASE,
    })
}

/// Where the chunks are, in this order of their numbers within each kind, with a capability table
/// of so many entries. Fails only when out of memory.
pub fn lay_out(
    alloc: Global,
    chunks: &[Chunk],
    order: &[u32],
    entries: u32,
) -> Result<Layout, AllocError>
    ensures { IfOk result (λ layout.
        layout_parts layout ≡ layout_of chunks.now order.now entries) }
{
    let mut placement = opening(alloc, chunks.len())?;
    placement.place_all(ChunkKind::Code, chunks, order);
    let code_end = placement.end;
    placement.end = RAM_BASE.wrapping_add(table_length(entries));
    placement.place_all(ChunkKind::ReadOnly, chunks, order);
    placement.place_all(ChunkKind::ReadWrite, chunks, order);
    placement.place_all(ChunkKind::Zeros, chunks, order);
    placement.place_all(ChunkKind::Common, chunks, order);
    Ok(Layout {
        addresses: placement.addresses,
        code_end,
        memory_end: placement.end,
    })
}

/// The least size of memory that holds so many bytes, where no request says one: a multiple of
/// 4,096, and at least that.
pub fn memory_size(bytes: u64) -> u64
    ensures { result ≡ memory_size bytes }
{
    bytes.wrapping_add(padding(bytes, PAGE)).max(PAGE)
}

/// What the size of memory is a multiple of where no request says it.
pub const PAGE: u64 = 4_096;
