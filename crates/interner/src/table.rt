//! The interner.

ghost use Rattle.std.specs.Prelude.{
  ◌≡◌,
  ◌≢◌,
  ℕ,
  ◌^◌,
  ◌<◌,
  [],
  Some,
  None,
  length,
  slice_get,
  option_copied,
  IfOk,
  IfSome,
  OnErr,
};
ghost use Rattle.interner.specs.Rows.{IsDistinct, IsInterned, IsRow};

use crate::growth::grow;
use crate::hashes::{home_of, tag_of};
use crate::slots::{add, number_at, place_of, row_at, slot_of};
use std::alloc::{AllocError, Global};
use std::marker::Model;

/// Rows of numbers, all as wide, each kept once. Rows are numbered from 0 on in the order in which
/// they came.
#[derive(Drop)]
pub struct Interner {
    width: usize,
    /// The numbers of all rows, row by row.
    numbers: Vec<u32>,
    /// How many rows there are.
    count: u32,
    /// How many places a row's tag may send its search to.
    homes: usize,
    /// By place, the row that is named there, or 0.
    slots: Vec<u64>,
    alloc: Global,
}

impl Model for Interner {
    ghost use Rattle.interner.specs.Rows.{Rows, rows_of};
    ghost use Rattle.interner.specs.Slots.{IsInterner};

    ghost Value = { Rows };

    ghost view = { λ a. record {
      width = a.width;
      rows = rows_of a.width a.numbers.items a.count;
    } };

    ghost invariant = { λ a. IsInterner a.width a.numbers.items a.slots.items a.homes a.count };
}

impl Interner {
    /// No rows, of so many numbers each. Allocates nothing.
    pub fn new(alloc: Global, width: usize) -> Interner
        ensures width { result.width ≡ width }
        ensures rows { result.rows ≡ [] }
    {
        Interner {
            width,
            numbers: Vec::new(alloc),
            count: 0,
            homes: 0,
            slots: Vec::new(alloc),
            alloc,
        }
    }

    /// How many numbers a row has.
    pub fn width(&self) -> usize
        ensures { result ≡ self.now.width }
    {
        self.width
    }

    /// How many rows there are: fewer than 2^32, and no two of them the same.
    pub fn len(&self) -> usize
        ensures count { result ≡ length self.now.rows }
        ensures few { result < 2 ^ 32 }
        ensures distinct { IsDistinct self.now }
    {
        self.count as usize
    }

    /// The row of this number, if there is one.
    pub fn row(&self, number: u32) -> Option<&[u32]>
        ensures { option_copied result ≡ slice_get self.now.rows number }
    {
        if number >= self.count {
            return None;
        }
        Some(row_at(self.numbers.as_slice(), self.width, number as usize))
    }

    /// The number of this row, if it is there.
    pub fn find(&self, row: &[u32]) -> Option<u32>
        ensures found { IfSome result (λ number. IsRow self.now number row.now) }
        ensures absent { result ≡ None → (i : ℕ) → slice_get self.now.rows i ≢ Some row.now }
    {
        if row.len() != self.width {
            return None;
        }
        let tag = tag_of(row);
        let slots = self.slots.as_slice();
        let home = home_of(tag, self.homes);
        let place = place_of(self.numbers.as_slice(), self.width, slots, home, row, tag);
        number_at(slots, place)
    }

    /// The number of this row, which becomes the last one where it is not there. Fails only when
    /// out of memory, or of numbers after 2^32 - 1 rows; then nothing changes.
    pub fn insert(&mut self, row: &[u32]) -> Result<u32, AllocError>
        requires { length row.now ≡ self.old.width }
        ensures interned { IfOk result (λ number. IsInterned self.old self.new row.now number) }
        ensures same_width { self.new.width ≡ self.old.width }
        ensures unchanged { OnErr result (self.new ≡ self.old) }
    {
        grow(self.alloc, &mut self.slots, &mut self.homes, self.count)?;
        let tag = tag_of(row);
        let slots = self.slots.as_slice();
        let home = home_of(tag, self.homes);
        let place = place_of(self.numbers.as_slice(), self.width, slots, home, row, tag);
        if let Some(number) = number_at(slots, place) {
            return Ok(number);
        }
        let number = self.count;
        if number == u32::MAX {
            return Err(AllocError);
        }
        let slot = slot_of(tag, number);
        add(&mut self.numbers, &mut self.slots, place, slot, row)?;
        self.count = number + 1;
        Ok(number)
    }
}
