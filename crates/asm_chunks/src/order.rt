//! The order of chunks, section by section.
#![tactic(auto, unfolding(crate::proofs::Unfold::orders))]

ghost use Rattle.std.specs.Prelude.{◌≡◌, ◌++◌, OnOk, IfOk, map};
ghost use Rattle.asm_chunks.specs.Order.{of_section, row_items, section_order};

use std::alloc::{AllocError, Global};

/// Appends the chunks of a section, in the order of the files.
fn push_section(
    order: &mut Vec<u32>,
    section: usize,
    rows: &[Vec<Option<u32>>],
) -> Result<(), AllocError>
    ensures { OnOk result (order.new.items
        ≡ order.old.items ++ of_section section (map row_items rows.now)) }
{
    for row in rows {
        if let Some(Some(number)) = row.get(section) {
            order.push(*number)?;
        }
    }
    Ok(())
}

/// The order of chunks: sections by their numbers, and the chunks of each in the order of the
/// files. Each file has a row of its chunks by their sections. Fails only when out of memory.
pub fn section_order(
    alloc: Global,
    sections: usize,
    rows: &[Vec<Option<u32>>],
) -> Result<Vec<u32>, AllocError>
    ensures { IfOk result (λ order. order.items ≡ section_order sections (map row_items rows.now)) }
{
    let mut order = Vec::new(alloc);
    for section in 0..sections {
        push_section(&mut order, section, rows)?;
    }
    Ok(order)
}
