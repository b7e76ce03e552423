//! A slot that names a word, which is a row of one number.

ghost use Rattle.std.specs.Prelude.{
  ◌≡◌,
  ◌≢◌,
  ℕ,
  ◌+◌,
  ◌-◌,
  ◌^◌,
  ◌<◌,
  ◌≤◌,
  [],
  ◌∷◌,
  ◌++◌,
  length,
  slice_index,
  true,
  false,
  OnOk,
  OnErr,
};
ghost use Rattle.interner.specs.Rows.{row_at};
ghost use Rattle.interner.specs.Hashes.{tag_of};
ghost use Rattle.interner.specs.Slots.{slot_of, link_in, tag_at, IsInterner, IsPut};

use crate::slots::{number_in, reach, tag_in};
use std::alloc::AllocError;

/// Whether a slot names this word, whose tag this is.
fn is_named(words: &[u64], slot: u64, word: u64, tag: u32) -> bool
    requires tag { tag ≡ tag_of (word ∷ []) }
    requires named { (i : ℕ) × (i < length words.now) × (i + 1 < 2 ^ 32)
        × (slot ≡ slot_of (tag_at 1 words.now i) i) }
    ensures same { result ≡ true → row_at 1 words.now (link_in slot - 1) ≡ word ∷ [] }
    ensures other { result ≡ false → row_at 1 words.now (link_in slot - 1) ≢ word ∷ [] }
{
    if tag_in(slot) != tag {
        return false;
    }
    words[number_in(slot) as usize] == word
}

/// The first place from the word's home on that is open, or whose slot names the word.
pub fn place_of(words: &[u64], slots: &[u64], home: usize, word: u64, tag: u32) -> usize
    requires tag { tag ≡ tag_of (word ∷ []) }
    requires before { (homes : ℕ) ×
        IsInterner 1 words.now slots.now homes (length words.now) }
    requires home { home ≤ length slots.now }
    ensures after { home ≤ result }
    ensures within { result ≤ length slots.now }
    ensures passed { (p : ℕ) → home ≤ p → p < result → 0 < slice_index slots.now p }
    ensures others { (p : ℕ) → home ≤ p → p < result →
        row_at 1 words.now (link_in (slice_index slots.now p) - 1) ≢ word ∷ [] }
    ensures here { 0 < slice_index slots.now result →
        row_at 1 words.now (link_in (slice_index slots.now result) - 1) ≡ word ∷ [] }
{
    let mut place = home;
    while place < slots.len() {
        let slot = slots[place];
        if slot == 0 || is_named(words, slot, word, tag) {
            return place;
        }
        place += 1;
    }
    place
}

/// Adds a word that this slot names, at an open place. After an `Err` no word and no slot changed.
pub fn add(
    words: &mut Vec<u64>,
    slots: &mut Vec<u64>,
    place: usize,
    slot: u64,
    word: u64,
) -> Result<(), AllocError>
    requires within { place ≤ length slots.old.items }
    requires was_open { slice_index slots.old.items place ≡ 0 }
    ensures put { OnOk result (IsPut slots.old.items slots.new.items slot place) }
    ensures words { OnOk result (words.new.items ≡ words.old.items ++ word ∷ []) }
    ensures same_words { OnErr result (words.new.items ≡ words.old.items) }
    ensures same_slots { OnErr result
        ((p : ℕ) → slice_index slots.new.items p ≡ slice_index slots.old.items p) }
    ensures long { length slots.old.items ≤ length slots.new.items }
{
    reach(slots, place)?;
    words.push(word)?;
    slots[place] = slot;
    Ok(())
}
