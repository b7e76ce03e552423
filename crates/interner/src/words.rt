//! The interner of words.
#![tactic(auto, using(crate::proofs::Rulesets::words))]

ghost use Rattle.std.specs.Prelude.{
  ◌≡◌,
  ◌≢◌,
  ℕ,
  ◌^◌,
  ◌<◌,
  [],
  ◌∷◌,
  Some,
  None,
  length,
  slice_get,
  IfOk,
  IfSome,
  OnErr,
};
ghost use Rattle.interner.specs.Rows.{IsDistinct, IsInterned, IsRow};

use crate::growth::grow;
use crate::hashes::{home_of, tag_of_word};
use crate::slots::{number_at, slot_of};
use crate::word_slots::{add, place_of};
use std::alloc::{AllocError, Global};
use std::marker::Model;

/// Words of 64 bits, each kept once, as rows of one number. They are numbered from 0 on in the
/// order in which they came.
#[derive(Drop)]
pub struct Words {
    words: Vec<u64>,
    /// How many places a word's tag may send its search to.
    homes: usize,
    /// By place, the word that is named there, or 0.
    slots: Vec<u64>,
    alloc: Global,
}

impl Model for Words {
    ghost use Rattle.std.specs.Prelude.{length};
    ghost use Rattle.interner.specs.Rows.{Rows, rows_of};
    ghost use Rattle.interner.specs.Slots.{IsInterner};

    ghost Value = { Rows };

    ghost view = { λ a. record {
      width = 1;
      rows = rows_of 1 a.words.items (length a.words.items);
    } };

    ghost invariant = { λ a.
        IsInterner 1 a.words.items a.slots.items a.homes (length a.words.items) };
}

impl Words {
    /// No words. Allocates nothing.
    pub fn new(alloc: Global) -> Words
        ensures width { result.width ≡ 1 }
        ensures rows { result.rows ≡ [] }
    {
        Words {
            words: Vec::new(alloc),
            homes: 0,
            slots: Vec::new(alloc),
            alloc,
        }
    }

    /// How many words there are: fewer than 2^32, and no two of them the same.
    pub fn len(&self) -> usize
        ensures count { result ≡ length self.now.rows }
        ensures few { result < 2 ^ 32 }
        ensures distinct { IsDistinct self.now }
    {
        self.words.len()
    }

    /// The word of this number, if there is one.
    pub fn word(&self, number: u32) -> Option<u64>
        ensures some { IfSome result (λ word. IsRow self.now number (word ∷ [])) }
        ensures none { result ≡ None → slice_get self.now.rows number ≡ None }
    {
        if number as usize >= self.words.len() {
            return None;
        }
        Some(self.words[number as usize])
    }

    /// The number of this word, if it is there.
    pub fn find(&self, word: u64) -> Option<u32>
        ensures found { IfSome result (λ number. IsRow self.now number (word ∷ [])) }
        ensures absent { result ≡ None →
            (i : ℕ) → slice_get self.now.rows i ≢ Some (word ∷ []) }
    {
        let tag = tag_of_word(word);
        let slots = self.slots.as_slice();
        let home = home_of(tag, self.homes);
        let place = place_of(self.words.as_slice(), slots, home, word, tag);
        number_at(slots, place)
    }

    /// The number of this word, which becomes the last one where it is not there. Fails only when
    /// out of memory, or of numbers after 2^32 - 1 words; then nothing changes.
    pub fn insert(&mut self, word: u64) -> Result<u32, AllocError>
        ensures interned { IfOk result (λ number.
            IsInterned self.old self.new (word ∷ []) number) }
        ensures unchanged { OnErr result (self.new ≡ self.old) }
    {
        let words = self.words.as_slice();
        let number = words.len() as u32;
        grow(self.alloc, &mut self.slots, &mut self.homes, number)?;
        let tag = tag_of_word(word);
        let slots = self.slots.as_slice();
        let home = home_of(tag, self.homes);
        let place = place_of(words, slots, home, word, tag);
        if let Some(found) = number_at(slots, place) {
            return Ok(found);
        }
        if number == u32::MAX {
            return Err(AllocError);
        }
        let slot = slot_of(tag, number);
        add(&mut self.words, &mut self.slots, place, slot, word)?;
        Ok(number)
    }
}
