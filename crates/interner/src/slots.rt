//! A slot: open, or the name of a row beside the row's tag.
#![tactic(auto, unfolding(crate::proofs::Unfold::slots))]

ghost use Rattle.std.specs.Prelude.{
  ◌≡◌,
  ◌≢◌,
  ℕ,
  ◌+◌,
  ◌-◌,
  ◌*◌,
  ◌^◌,
  ◌<◌,
  ◌≤◌,
  ◌++◌,
  length,
  slice_index,
  None,
  true,
  false,
  OnOk,
  OnErr,
  IfSome,
};
ghost use Rattle.interner.specs.Rows.{row_at};
ghost use Rattle.interner.specs.Hashes.{tag_of};
ghost use Rattle.interner.specs.Slots.{slot_of, link_in, tag_in, tag_at, IsInterner, IsPut};

use std::alloc::AllocError;

/// The numbers that half a slot can hold.
const HALF: u64 = 1 << 32;

/// Lends a row of the numbers.
pub fn row_at(numbers: &[u32], width: usize, row: usize) -> &[u32]
    requires { (row + 1) * width ≤ length numbers.now }
    ensures { result.now ≡ row_at width numbers.now row }
{
    let start = row * width;
    &numbers[start..start + width]
}

/// The slot that names this row, whose tag this is.
pub fn slot_of(tag: u32, number: u32) -> u64
    requires { number + 1 < 2 ^ 32 }
    ensures { result ≡ slot_of tag number }
{
    u64::from(tag) * HALF + u64::from(number + 1)
}

/// The tag in a slot.
pub fn tag_in(slot: u64) -> u32
    ensures { result ≡ tag_in slot }
{
    (slot / HALF) as u32
}

/// The number of the row that a slot names.
pub fn number_in(slot: u64) -> u32
    requires { 0 < link_in slot }
    ensures { result + 1 ≡ link_in slot }
{
    (slot % HALF) as u32 - 1
}

/// Whether a slot names this row, whose tag this is.
fn is_named(numbers: &[u32], width: usize, slot: u64, row: &[u32], tag: u32) -> bool
    requires tag { tag ≡ tag_of row.now }
    requires named { (i : ℕ) × ((i + 1) * width ≤ length numbers.now) × (i + 1 < 2 ^ 32)
        × (slot ≡ slot_of (tag_at width numbers.now i) i) }
    ensures same { result ≡ true → row_at width numbers.now (link_in slot - 1) ≡ row.now }
    ensures other { result ≡ false → row_at width numbers.now (link_in slot - 1) ≢ row.now }
{
    if tag_in(slot) != tag {
        return false;
    }
    row_at(numbers, width, number_in(slot) as usize) == row
}

/// The first place from the row's home on that is open, or whose slot names the row.
pub fn place_of(
    numbers: &[u32],
    width: usize,
    slots: &[u64],
    home: usize,
    row: &[u32],
    tag: u32,
) -> usize
    requires tag { tag ≡ tag_of row.now }
    requires before { (homes count : ℕ) ×
        IsInterner width numbers.now slots.now homes count }
    requires home { home ≤ length slots.now }
    ensures after { home ≤ result }
    ensures within { result ≤ length slots.now }
    ensures passed { (p : ℕ) → home ≤ p → p < result → 0 < slice_index slots.now p }
    ensures others { (p : ℕ) → home ≤ p → p < result →
        row_at width numbers.now (link_in (slice_index slots.now p) - 1) ≢ row.now }
    ensures here { 0 < slice_index slots.now result →
        row_at width numbers.now (link_in (slice_index slots.now result) - 1) ≡ row.now }
{
    let mut place = home;
    while place < slots.len() {
        let slot = slots[place];
        if slot == 0 || is_named(numbers, width, slot, row, tag) {
            return place;
        }
        place += 1;
    }
    place
}

/// The number of the row that the slot at this place names, unless the place is open.
pub fn number_at(slots: &[u64], place: usize) -> Option<u32>
    requires { 0 < slice_index slots.now place → 0 < link_in (slice_index slots.now place) }
    ensures some { IfSome result (λ number. (0 < slice_index slots.now place)
        × (number + 1 ≡ link_in (slice_index slots.now place))) }
    ensures none { result ≡ None → slice_index slots.now place ≡ 0 }
{
    if place >= slots.len() {
        return None;
    }
    let slot = slots[place];
    if slot == 0 {
        return None;
    }
    Some(number_in(slot))
}

/// Makes the table so long that it has this place. What is new is open.
pub fn reach(slots: &mut Vec<u64>, place: usize) -> Result<(), AllocError>
    requires { place ≤ length slots.old.items }
    ensures there { OnOk result (place < length slots.new.items) }
    ensures same { (p : ℕ) → slice_index slots.new.items p ≡ slice_index slots.old.items p }
    ensures long { length slots.old.items ≤ length slots.new.items }
{
    if place >= slots.len() {
        slots.push(0)?;
    }
    Ok(())
}

/// Adds a row that this slot names, at an open place. After an `Err` no row and no slot changed.
pub fn add(
    numbers: &mut Vec<u32>,
    slots: &mut Vec<u64>,
    place: usize,
    slot: u64,
    row: &[u32],
) -> Result<(), AllocError>
    requires within { place ≤ length slots.old.items }
    requires was_open { slice_index slots.old.items place ≡ 0 }
    ensures put { OnOk result (IsPut slots.old.items slots.new.items slot place) }
    ensures numbers { OnOk result (numbers.new.items ≡ numbers.old.items ++ row.now) }
    ensures same_numbers { OnErr result (numbers.new.items ≡ numbers.old.items) }
    ensures same_slots { OnErr result
        ((p : ℕ) → slice_index slots.new.items p ≡ slice_index slots.old.items p) }
    ensures long { length slots.old.items ≤ length slots.new.items }
{
    reach(slots, place)?;
    numbers.extend_from_slice(row)?;
    slots[place] = slot;
    Ok(())
}
