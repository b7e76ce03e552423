//! A table of slots with more room.

ghost use Rattle.std.specs.Prelude.{◌≡◌, ℕ, ◌^◌, ◌<◌, ◌≤◌, List, length, slice_index, OnErr, IfOk};
ghost use Rattle.interner.specs.Hashes.{home_of};
ghost use Rattle.interner.specs.Slots.{tag_in, HasPlace, IsInterner, IsPut};

use crate::hashes::home_of;
use crate::slots::{reach, tag_in};
use std::alloc::{AllocError, Global};

/// The fewest homes that a table with a row has.
const FEWEST_HOMES: usize = 16;

/// How many places there are behind the last home, at first.
const SPARE: usize = 32;

/// The first open place from this one on.
fn open_place(slots: &[u64], home: usize) -> usize
    requires { home ≤ length slots.now }
    ensures after { home ≤ result }
    ensures within { result ≤ length slots.now }
    ensures met { (p : ℕ) → home ≤ p → p < result → 0 < slice_index slots.now p }
    ensures is_open { slice_index slots.now result ≡ 0 }
{
    let mut place = home;
    while place < slots.len() {
        if slots[place] == 0 {
            return place;
        }
        place += 1;
    }
    place
}

/// Puts a slot into the first open place from its home on.
fn put(slots: &mut Vec<u64>, homes: usize, slot: u64) -> Result<(), AllocError>
    requires few { homes ≤ 2 ^ 32 }
    requires room { homes ≤ length slots.old.items }
    ensures placed { IfOk result (λ _. (place : ℕ) ×
        (home_of (tag_in slot) homes ≤ place)
        × ((p : ℕ) → home_of (tag_in slot) homes ≤ p → p < place →
        0 < slice_index slots.old.items p)
        × IsPut slots.old.items slots.new.items slot place) }
    ensures long { length slots.old.items ≤ length slots.new.items }
{
    let place = open_place(slots.as_slice(), home_of(tag_in(slot), homes));
    reach(slots, place)?;
    slots[place] = slot;
    Ok(())
}

/// A table with so many homes, with the slots of this one.
#[cold]
#[inline(never)]
fn regrown(alloc: Global, slots: &[u64], homes: usize) -> Result<Vec<u64>, AllocError>
    requires { homes ≤ 2 ^ 32 }
    ensures room { IfOk result (λ new. homes ≤ length new.items) }
    ensures old { IfOk result (λ new. (p : ℕ) → 0 < slice_index new.items p →
        (q : ℕ) × (slice_index new.items p ≡ slice_index slots.now q)) }
    ensures placed { IfOk result (λ new. (q : ℕ) → 0 < slice_index slots.now q →
        HasPlace new.items homes (slice_index slots.now q)) }
{
    let mut new = Vec::new(alloc);
    new.resize(homes + SPARE, 0)?;
    for slot in slots {
        if *slot != 0 {
            put(&mut new, homes, *slot)?;
        }
    }
    Ok(new)
}

/// Makes room for one more row: twice as many homes where three quarters of them would do for the
/// rows. No row changes. Fails only when out of memory, and then nothing changes.
#[inline(always)]
pub fn grow(
    alloc: Global,
    slots: &mut Vec<u64>,
    homes: &mut usize,
    count: u32,
) -> Result<(), AllocError>
    requires few { homes.old ≤ 2 ^ 32 }
    ensures kept { (width : ℕ) (numbers : List ℕ) →
        IsInterner width numbers slots.old.items homes.old count →
        IsInterner width numbers slots.new.items homes.new count }
{
    let before = *homes;
    if (count as usize) < before / 4 * 3 || before > u32::MAX as usize / 2 {
        return Ok(());
    }
    let after = (2 * before).max(FEWEST_HOMES);
    *slots = regrown(alloc, slots.as_slice(), after)?;
    *homes = after;
    Ok(())
}
