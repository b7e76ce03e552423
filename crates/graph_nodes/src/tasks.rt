//! Rows that a part of the nodes is to take in.

ghost use Rattle.std.specs.Prelude.{◌≡◌, ◌+◌, ◌*◌, ◌≤◌, ◌<◌, ℕ, List, [], length, IfOk, OnOk};
ghost use Rattle.interner.specs.Rows.{row_at};
ghost use Rattle.graph_nodes.specs.Parts.{Grows};
ghost use Rattle.graph_nodes.specs.Tasks.{AreFound, IsDone, IsReady, IsSent};

use crate::parts::Part;
use std::alloc::{AllocError, Global};

/// A part of the nodes, and the rows that it is to take in.
#[derive(Drop)]
pub struct Task {
    pub(crate) part: Part,
    /// The rows, one after another.
    pub(crate) rows: Vec<u32>,
    /// How many they are.
    pub(crate) count: u32,
    /// Where in the part each of the rows is that were taken in last.
    pub(crate) places: Vec<u32>,
    /// Whether memory ran out.
    pub(crate) failed: bool,
}

/// Lends a row.
pub fn row_at(rows: &[u32], width: usize, k: usize) -> &[u32]
    requires { (k + 1) * width ≤ length rows.now }
    ensures row { result.now ≡ row_at width rows.now k }
    ensures long { length result.now ≡ width }
{
    let start = k * width;
    &rows[start..start + width]
}

impl Task {
    /// A part of no rows, and none that it is to take in. Allocates nothing.
    pub fn new(alloc: Global, width: usize) -> Task
        ensures width { result.part.kept.width ≡ width }
        ensures rows { result.part.kept.rows ≡ [] }
        ensures numbers { result.part.numbers.items ≡ [] }
        ensures ready { IsReady result }
    {
        let part = Part::new(alloc, width);
        let _ = part.kept.len();
        Task {
            part,
            rows: Vec::new(alloc),
            count: 0,
            places: Vec::new(alloc),
            failed: false,
        }
    }

    /// Puts a row to those that the part is to take in, and says which of them it is. Fails only
    /// when out of memory, or of numbers after 2^32 - 1 rows.
    pub fn send(&mut self, row: &[u32]) -> Result<u32, AllocError>
        requires ready { IsReady self.old }
        requires wide { length row.now ≡ self.old.part.kept.width }
        ensures ready { IsReady self.new }
        ensures same_part { self.new.part ≡ self.old.part }
        ensures others { (k : ℕ) (other : List ℕ) → IsSent self.old k other →
            IsSent self.new k other }
        ensures sent { IfOk result (λ k. IsSent self.new k row.now) }
    {
        let k = self.count;
        if k == u32::MAX {
            return Err(AllocError);
        }
        self.rows.extend_from_slice(row)?;
        self.count = k + 1;
        Ok(k)
    }

    /// Takes in the rows.
    pub fn done(mut self) -> Task
        requires { IsReady self }
        ensures { IsDone self result }
    {
        self.failed = self.take_in().is_err();
        self
    }

    /// The same. Fails only when out of memory, or of numbers after 2^32 - 1 rows.
    fn take_in(&mut self) -> Result<(), AllocError>
        requires { IsReady self.old }
        ensures grows { Grows self.old.part self.new.part }
        ensures found { OnOk result (AreFound self.old self.new) }
    {
        self.places.clear();
        let width = self.part.kept.width();
        for k in 0..self.count {
            let row = row_at(self.rows.as_slice(), width, k as usize);
            let place = self.part.add(row)?;
            self.places.push(place)?;
        }
        self.rows.clear();
        self.count = 0;
        Ok(())
    }
}
