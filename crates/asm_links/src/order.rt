//! The order in which chunks are laid out.
#![tactic(auto, unfolding(crate::proofs::Unfold::orders))]

ghost use Rattle.std.specs.Prelude.{◌≡◌, ◌++◌, IfOk, OnOk};
ghost use Rattle.asm_files.specs.Programs.{program_parts};
ghost use Rattle.asm_links.specs.Order.{commons_from, order_of};

use asm_chunks::section_order;
use asm_files::Program;
use asm_layout::{Chunk, ChunkKind};
use std::alloc::{AllocError, Global};

/// Appends the numbers of the chunks that are common symbols, in order. Fails only when out of
/// memory.
fn push_commons(order: &mut Vec<u32>, chunks: &[Chunk]) -> Result<(), AllocError>
    ensures { OnOk result (order.new.items ≡ order.old.items ++ commons_from 0 chunks.now) }
{
    for (number, chunk) in chunks.iter().enumerate() {
        if chunk.kind.rank() == ChunkKind::Common.rank() {
            let Ok(number) = u32::try_from(number) else {
                return Err(AllocError);
            };
            order.push(number)?;
        }
    }
    Ok(())
}

/// The order in which chunks are laid out: those of sections by the numbers of these, and in each
/// section in the order of the files; and then common symbols. Fails only when out of memory.
pub fn chunk_order(alloc: Global, program: &Program) -> Result<Vec<u32>, AllocError>
    ensures { IfOk result (λ order. order.items ≡ order_of (program_parts program.now)) }
{
    let sections = program.sections as usize;
    let mut order = section_order(alloc, sections, program.made.rows.as_slice())?;
    push_commons(&mut order, program.made.chunks.as_slice())?;
    Ok(order)
}
