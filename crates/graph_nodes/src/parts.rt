//! One part of the nodes.

ghost use Rattle.std.specs.Prelude.{
  ◌≡◌,
  ◌≢◌,
  ℕ,
  suc,
  [],
  ◌<◌,
  Some,
  None,
  length,
  slice_get,
  IfOk,
  IfSome,
};
ghost use Rattle.graph_nodes.specs.Parts.{Grows, IsAt};

use crate::packed::PackedRows;
use std::alloc::{AllocError, Global};

/// A part of the nodes: its rows, and the number that each has among all nodes.
#[derive(Drop)]
pub struct Part {
    pub kept: PackedRows,
    /// For each row 1 more than its number among all nodes, or 0 where it has none yet.
    pub numbers: Vec<u32>,
}

impl Part {
    /// No rows. Allocates nothing.
    pub fn new(alloc: Global, width: usize) -> Part
        ensures width { result.kept.width ≡ width }
        ensures rows { result.kept.rows ≡ [] }
        ensures numbers { result.numbers.items ≡ [] }
    {
        Part {
            kept: PackedRows::new(alloc, width),
            numbers: Vec::new(alloc),
        }
    }

    /// Where this row is, which becomes the last one where it is not there. Fails only when out of
    /// memory, or of numbers after 2^32 - 1 rows.
    pub fn add(&mut self, row: &[u32]) -> Result<u32, AllocError>
        requires { length row.now ≡ self.old.kept.width }
        ensures grows { Grows self.old self.new }
        ensures there { IfOk result (λ place. IsAt self.new place row.now) }
    {
        let added = self.kept.insert(row);
        let rows = self.kept.len();
        let place = added?;
        if self.numbers.len() < rows {
            self.numbers.resize(rows, 0)?;
        }
        Ok(place)
    }

    /// The number that the row at this place has among all nodes.
    pub fn number_of(&self, place: u32) -> Option<u32>
        ensures some { IfSome result (λ number.
            slice_get self.now.numbers.items place ≡ Some (suc number)) }
        ensures none { result ≡ None →
            (number : ℕ) → slice_get self.now.numbers.items place ≢ Some (suc number) }
    {
        if place as usize >= self.numbers.len() {
            return None;
        }
        let above = self.numbers[place as usize];
        if above == 0 {
            return None;
        }
        Some(above - 1)
    }
}
