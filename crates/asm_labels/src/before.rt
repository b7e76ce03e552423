//! The last label before each instruction.
#![tactic(auto, unfolding(crate::proofs::Unfold::before))]

ghost use Rattle.std.specs.Prelude.{
  ◌≡◌,
  ◌<◌,
  ◌^◌,
  ◌+◌,
  ℕ,
  IfOk,
  None,
  length,
  map,
  slice_index_or,
};
ghost use Rattle.asm_places.specs.Places.{places_parts};
ghost use Rattle.asm_symbols.specs.Definitions.{definition_parts};
ghost use Rattle.asm_labels.specs.Before.{label_before, or_before};

use crate::labels::first_labels;
use asm_places::{Definition, Places};
use std::alloc::{AllocError, Global};

/// The number of a label's symbol, and that of its instruction.
#[derive(Clone, Copy, Debug)]
pub struct LabelBefore {
    pub symbol: u32,
    pub instruction: usize,
}

/// The label of an instruction, if it has one, or else the last one before it.
fn or_before(
    first: Option<u32>,
    instruction: usize,
    before: Option<LabelBefore>,
) -> Option<LabelBefore>
    ensures { result ≡ or_before first instruction before }
{
    match first {
        Some(symbol) => Some(LabelBefore {
            symbol,
            instruction,
        }),
        None => before,
    }
}

/// The first label of an instruction, if it has one.
fn first_at(firsts: &[Option<u32>], instruction: usize) -> Option<u32>
    ensures { result ≡ slice_index_or firsts.now instruction None }
{
    match firsts.get(instruction) {
        Some(first) => *first,
        None => None,
    }
}

/// The last label at or before each of so many instructions: of several at one place the first.
/// Fails only when out of memory.
pub fn labels_before(
    alloc: Global,
    places: Places<'_>,
    symbols: &[Definition],
    count: usize,
) -> Result<Vec<Option<LabelBefore>>, AllocError>
    requires { length symbols.now < 2 ^ 32 }
    ensures count { IfOk result (λ labels. length labels.items ≡ count) }
    ensures labels { IfOk result (λ labels. (n : ℕ) → n < count →
        slice_index_or labels.items n None
        ≡ label_before (places_parts places.entry) (map definition_parts symbols.now) n) }
{
    let firsts = first_labels(alloc, places, symbols, count)?;
    let mut labels = Vec::new(alloc);
    let mut before = None;
    for number in 0..count {
        before = or_before(first_at(&firsts, number), number, before);
        labels.push(before)?;
    }
    Ok(labels)
}
