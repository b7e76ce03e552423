//! Memories as rows of numbers.

ghost use Rattle.std.specs.Prelude.{
  ◌≡◌,
  ◌≢◌,
  ℕ,
  ◌<◌,
  [],
  ◌∷◌,
  List,
  Some,
  length,
  slice_get,
  slice_set,
  option_copied,
  IfOk,
  OnErr,
};
ghost use Rattle.interner.specs.Rows.{IsDistinct, IsInterned};
ghost use Rattle.state_store.specs.Numbered.{Extends, each};

use crate::values::Values;
use interner::Interner;
use std::alloc::{AllocError, Global};
use std::marker::Model;
use tagged_mem::Ram;

/// The row of a memory. Fails only when out of memory, or of numbers.
pub fn row_of_memory(alloc: Global, values: &mut Values, ram: &Ram) -> Result<Vec<u32>, AllocError>
    ensures row { IfOk result (λ row. each (slice_get values.new) row.items ≡ Some ram.now) }
    ensures kept { Extends values.old values.new }
{
    let mut row = Vec::new(alloc);
    for number in 0..ram.granule_count() {
        row.push(values.number(ram.granule(number).value())?)?;
    }
    Ok(row)
}

/// Rows of memories, each kept once. A write to one is looked up by its number, the place and the
/// value, so that the row is copied and hashed only when a write is new.
#[derive(Drop)]
pub struct Memories {
    rows: Interner,
    /// The writes so far, each a row's number, a place and a value.
    writes: Interner,
    /// For each of them the number of the row that it leaves.
    after: Vec<u32>,
    /// A row to work in.
    blank: Vec<u32>,
}

impl Model for Memories {
    ghost use Rattle.interner.specs.Rows.{Rows};
    ghost use Rattle.state_store.specs.Memories.{AreWrites};

    ghost Value = { Rows };

    ghost view = { λ a. a.rows };

    ghost invariant = { λ a. AreWrites a.rows.rows a.writes a.after.items };
}

impl Memories {
    /// No rows, of so many numbers each. Allocates nothing.
    pub fn new(alloc: Global, width: usize) -> Memories
        ensures width { result.width ≡ width }
        ensures rows { result.rows ≡ [] }
    {
        Memories {
            rows: Interner::new(alloc, width),
            writes: Interner::new(alloc, 3),
            after: Vec::new(alloc),
            blank: Vec::new(alloc),
        }
    }

    /// How many rows there are, no two of them the same.
    pub fn len(&self) -> usize
        ensures count { result ≡ length self.now.rows }
        ensures distinct { IsDistinct self.now }
    {
        self.rows.len()
    }

    /// The row of this number, if there is one.
    pub fn row(&self, number: u32) -> Option<&[u32]>
        ensures { option_copied result ≡ slice_get self.now.rows number }
    {
        self.rows.row(number)
    }

    /// The number of this row. Fails only when out of memory, or of numbers, as the next call.
    pub fn insert(&mut self, row: &[u32]) -> Result<u32, AllocError>
        requires { length row.now ≡ self.old.width }
        ensures interned { IfOk result (λ number. IsInterned self.old self.new row.now number) }
        ensures same_width { self.new.width ≡ self.old.width }
        ensures unchanged { OnErr result (self.new ≡ self.old) }
    {
        self.rows.insert(row)
    }

    /// The number of a row with another value at one place.
    pub fn insert_written(&mut self, before: u32, place: u32, value: u32) -> Result<u32, AllocError>
        requires row { (row : List ℕ) × (slice_get self.old.rows before ≡ Some row)
            × (length row ≡ self.old.width) }
        requires place { place < self.old.width }
        ensures left { IfOk result (λ number. (row : List ℕ) →
            slice_get self.old.rows before ≡ Some row →
            slice_get self.new.rows number ≡ Some (slice_set row place value)) }
        ensures same_width { self.new.width ≡ self.old.width }
        ensures kept { Extends self.old.rows self.new.rows }
    {
        let write = [before, place, value];
        if let Some(known) = self.writes.find(&write) {
            return Ok(self.after[known as usize]);
        }
        let Some(row) = self.rows.row(before) else {
            unreachable!()
        };
        self.blank.clear();
        self.blank.extend_from_slice(row)?;
        self.blank[place as usize] = value;
        let number = self.rows.insert(self.blank.as_slice())?;
        self.after.push(number)?;
        match self.writes.insert(&write) {
            Ok(_) => Ok(number),
            Err(fault) => {
                self.after.pop();
                Err(fault)
            }
        }
    }
}
