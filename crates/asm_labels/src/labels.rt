//! The first label of each instruction.
#![tactic(auto, unfolding(crate::proofs::Unfold::labels))]

ghost use Rattle.std.specs.Prelude.{
  ◌≡◌,
  ◌<◌,
  ◌^◌,
  ℕ,
  IfOk,
  None,
  Some,
  length,
  map,
  slice_index_or,
};
ghost use Rattle.asm_places.specs.Places.{places_parts};
ghost use Rattle.asm_symbols.specs.Definitions.{definition_parts};
ghost use Rattle.asm_labels.specs.Labels.{
  first_label,
  instruction_of,
  is_free,
  is_shown,
  label_put,
  with_label,
};

use asm_places::{ChunkKind, Definition, Meaning, Places};
use cheri_model::{CODE_BASE, INSTRUCTION_BYTES};
use std::alloc::{AllocError, Global};

/// Whether a symbol of this name is told: all but those that begin with `.L`.
pub fn is_shown(name: &[u8]) -> bool
    ensures { result ≡ is_shown name.now }
{
    match name {
        [b'.', b'L', ..] => false,
        _ => true,
    }
}

/// The number of the instruction that a symbol is a label of, if it is a label in code that is
/// told.
fn instruction_of(places: Places<'_>, symbol: &Definition) -> Option<u64>
    ensures { result
        ≡ instruction_of (places_parts places.entry) (definition_parts symbol.now) }
{
    let Meaning::Place(chunk, offset) = symbol.meaning else {
        return None;
    };
    if !is_shown(symbol.name) {
        return None;
    }
    if places.kind_of(chunk).rank() != ChunkKind::Code.rank() {
        return None;
    }
    let address = places.address_in(chunk, u64::from(offset))?;
    Some(address.wrapping_sub(CODE_BASE) / INSTRUCTION_BYTES)
}

/// Whether an instruction has no label.
fn is_free(firsts: &[Option<u32>], instruction: usize) -> bool
    ensures { result ≡ is_free firsts.now instruction }
{
    match firsts.get(instruction) {
        Some(first) => first.is_none(),
        None => false,
    }
}

/// Says that a symbol of this number is a label of an instruction, if that has none before.
#[tactic(auto, using(crate::proofs::LabelLemmas::free_inside))]
fn put_label(firsts: &mut [Option<u32>], instruction: u64, number: u32)
    ensures { firsts.new ≡ label_put firsts.old instruction number }
{
    let place = instruction as usize;
    if is_free(firsts, place) {
        firsts[place] = Some(number);
    }
}

/// The same of a symbol that may be a label.
fn put_symbol(firsts: &mut [Option<u32>], instruction: Option<u64>, number: u32)
    ensures { (n : ℕ) → n < length firsts.old → slice_index_or firsts.new n None
        ≡ with_label instruction number n (slice_index_or firsts.old n None) }
{
    if let Some(instruction) = instruction {
        put_label(firsts, instruction, number);
    }
}

/// The first label of each of so many instructions, by the number of its symbol. Fails only when
/// out of memory.
pub(crate) fn first_labels(
    alloc: Global,
    places: Places<'_>,
    symbols: &[Definition],
    count: usize,
) -> Result<Vec<Option<u32>>, AllocError>
    requires { length symbols.now < 2 ^ 32 }
    ensures count { IfOk result (λ firsts. length firsts.items ≡ count) }
    ensures labels { IfOk result (λ firsts. (n : ℕ) → n < count →
        slice_index_or firsts.items n None
        ≡ first_label (places_parts places.entry) n 0 (map definition_parts symbols.now)) }
{
    let mut firsts = vec![in alloc; None; count]?;
    for (number, symbol) in symbols.iter().enumerate() {
        let instruction = instruction_of(places, symbol);
        put_symbol(firsts.as_mut_slice(), instruction, number as u32);
    }
    Ok(firsts)
}
