//! Rows that are kept in words where they fit.

ghost use Rattle.std.specs.Prelude.{
  ◌≡◌,
  ◌≢◌,
  ℕ,
  ◌^◌,
  ◌<◌,
  [],
  Some,
  None,
  length,
  slice_get,
  true,
  false,
  IfOk,
  IfSome,
  OnErr,
};
ghost use Rattle.interner.specs.Rows.{IsDistinct, IsInterned, IsRow};
ghost use Rattle.graph_nodes.specs.Kept.{HasBits};

use crate::packing::{pack, unpack};
use interner::{Interner, Words};
use std::alloc::{AllocError, Global};
use std::marker::Model;

/// Rows of numbers, all as wide, each kept once. Rows are numbered from 0 on in the order in which
/// they came. Each is kept in one word of 64 bits, as long as they all fit.
#[derive(Drop)]
pub struct PackedRows {
    width: usize,
    /// How many bits each number of a row has but the first, where rows are kept in words.
    bits: Option<u32>,
    /// The words of the rows, where they are kept in words.
    words: Words,
    /// The rows, where they are kept number by number.
    wide: Interner,
    alloc: Global,
}

impl Model for PackedRows {
    ghost use Rattle.interner.specs.Rows.{Rows};
    ghost use Rattle.graph_nodes.specs.Kept.{kept_in, rows_of, AreKept};

    ghost Value = { Rows };

    ghost view = { λ a. rows_of a.bits a.width (kept_in a.bits a.words a.wide) };

    ghost invariant = { λ a. AreKept a.bits a.width (kept_in a.bits a.words a.wide) };
}

/// How many bits of a word each number has but the first, which has the others, in rows of so many
/// numbers. None where rows are kept number by number.
fn bits_of(width: usize) -> Option<u32>
    ensures { HasBits result width }
{
    match width {
        1 | 2 => Some(32),
        3 => Some(20),
        4 => Some(16),
        5 => Some(12),
        6 => Some(10),
        7 => Some(9),
        8 => Some(8),
        9 => Some(7),
        _ => None,
    }
}

impl PackedRows {
    /// No rows, of so many numbers each. Allocates nothing.
    #[tactic(auto, using(crate::proofs::KeptLemmas::no_rows, crate::proofs::KeptLemmas::none_kept))]
    pub fn new(alloc: Global, width: usize) -> PackedRows
        ensures width { result.width ≡ width }
        ensures rows { result.rows ≡ [] }
    {
        PackedRows {
            width,
            bits: bits_of(width),
            words: Words::new(alloc),
            wide: Interner::new(alloc, width),
            alloc,
        }
    }

    /// How many numbers a row has.
    pub fn width(&self) -> usize
        ensures { result ≡ self.now.width }
    {
        self.width
    }

    /// How many rows there are: fewer than 2^32, and no two of them the same.
    pub fn len(&self) -> usize
        ensures count { result ≡ length self.now.rows }
        ensures few { result < 2 ^ 32 }
        ensures distinct { IsDistinct self.now }
    {
        let Some(_) = self.bits else {
            return self.wide.len();
        };
        self.words.len()
    }

    /// Writes the row of this number. False where there is none, and then nothing is written.
    #[inline(always)]
    pub fn read(&self, number: u32, row: &mut [u32]) -> bool
        requires room { length row.old ≡ self.now.width }
        ensures row { result ≡ true → slice_get self.now.rows number ≡ Some row.new }
        ensures none { result ≡ false → slice_get self.now.rows number ≡ None }
        ensures left { result ≡ false → row.new ≡ row.old }
        ensures same_room { length row.new ≡ length row.old }
    {
        let Some(bits) = self.bits else {
            let Some(kept) = self.wide.row(number) else {
                return false;
            };
            row.copy_from_slice(kept);
            return true;
        };
        let Some(word) = self.words.word(number) else {
            return false;
        };
        unpack(bits, word, row);
        true
    }

    /// The number of this row, if it is there.
    pub fn find(&self, row: &[u32]) -> Option<u32>
        ensures found { IfSome result (λ number. IsRow self.now number row.now) }
        ensures absent { result ≡ None → (i : ℕ) → slice_get self.now.rows i ≢ Some row.now }
    {
        let Some(bits) = self.bits else {
            return self.wide.find(row);
        };
        if row.len() != self.width {
            return None;
        }
        let word = pack(bits, row)?;
        self.words.find(word)
    }

    /// The number of this row, which becomes the last one where it is not there. Fails only when out
    /// of memory, or of numbers after 2^32 - 1 rows; then nothing changes.
    #[inline(always)]
    pub fn insert(&mut self, row: &[u32]) -> Result<u32, AllocError>
        requires { length row.now ≡ self.old.width }
        ensures interned { IfOk result (λ number. IsInterned self.old self.new row.now number) }
        ensures same_width { self.new.width ≡ self.old.width }
        ensures unchanged { OnErr result (self.new ≡ self.old) }
    {
        let Some(bits) = self.bits else {
            return self.wide.insert(row);
        };
        if let Some(word) = pack(bits, row) {
            return self.words.insert(word);
        }
        self.insert_wide(row)
    }

    /// The same where rows are to be kept number by number from now on.
    #[cold]
    #[inline(never)]
    fn insert_wide(&mut self, row: &[u32]) -> Result<u32, AllocError>
        requires { length row.now ≡ self.old.width }
        ensures interned { IfOk result (λ number. IsInterned self.old self.new row.now number) }
        ensures same_width { self.new.width ≡ self.old.width }
        ensures unchanged { OnErr result (self.new ≡ self.old) }
    {
        self.wide = self.unpacked()?;
        self.bits = None;
        self.words = Words::new(self.alloc);
        self.wide.insert(row)
    }

    /// The rows, kept number by number.
    fn unpacked(&self) -> Result<Interner, AllocError>
        ensures { IfOk result (λ wide. wide ≡ self.now) }
    {
        let mut wide = Interner::new(self.alloc, self.width);
        let mut row = Vec::new(self.alloc);
        row.resize(self.width, 0)?;
        for number in 0..self.len() {
            if !self.read(number as u32, row.as_mut_slice()) {
                unreachable!()
            }
            wide.insert(row.as_slice())?;
        }
        Ok(wide)
    }
}
