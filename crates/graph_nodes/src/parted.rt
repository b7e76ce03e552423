//! Nodes in parts.

ghost use Rattle.std.specs.Prelude.{
  ◌≡◌,
  ◌≢◌,
  ℕ,
  ◌^◌,
  ◌<◌,
  [],
  Some,
  None,
  length,
  slice_get,
  true,
  false,
  List,
  IfOk,
  IfSome,
  OnErr,
};
ghost use Rattle.interner.specs.Rows.{IsDistinct, IsInterned, IsRow};
ghost use Rattle.graph_nodes.specs.Homes.{home_of};
ghost use Rattle.graph_nodes.specs.Parted.{nodes_in, HasPlace, IsFoundFor, IsParted};

use crate::homes::home_of;
use crate::tasks::Task;
use std::alloc::{AllocError, Global};

/// Where a row is: in which part, and where there.
#[derive(Clone, Copy)]
pub struct Place {
    pub part: u32,
    pub row: u32,
}

/// Which row of which part's task a target is.
#[derive(Clone, Copy)]
pub struct Sent {
    pub part: u32,
    pub row: u32,
}

/// Nodes in parts, each of which can take in rows by itself.
#[derive(Drop)]
pub struct Parted {
    pub width: usize,
    pub tasks: Vec<Task>,
    /// By number, where each row is.
    pub order: Vec<Place>,
}

impl Parted {
    /// No rows, in so many parts. Fails only when out of memory.
    pub fn new(alloc: Global, width: usize, parts: u8) -> Result<Parted, AllocError>
        requires { 0 < parts }
        ensures whole { IfOk result (λ parted. IsParted parted) }
        ensures width { IfOk result (λ parted. parted.width ≡ width) }
        ensures rows { IfOk result (λ parted. (nodes_in parted).rows ≡ []) }
    {
        let mut tasks = Vec::new(alloc);
        for _ in 0..parts {
            tasks.push(Task::new(alloc, width))?;
        }
        Ok(Parted {
            width,
            tasks,
            order: Vec::new(alloc),
        })
    }

    /// How many rows there are.
    pub fn len(&self) -> usize
        requires { IsParted self.now }
        ensures count { result ≡ length (nodes_in self.now).rows }
        ensures few { result < 2 ^ 32 }
        ensures distinct { IsDistinct (nodes_in self.now) }
    {
        self.order.len()
    }

    /// Writes the row of this number. False where there is none, and then nothing is written.
    #[inline(never)]
    pub fn read(&self, number: u32, row: &mut [u32]) -> bool
        requires whole { IsParted self.now }
        requires room { length row.old ≡ self.now.width }
        ensures row { result ≡ true → slice_get (nodes_in self.now).rows number ≡ Some row.new }
        ensures none { result ≡ false → slice_get (nodes_in self.now).rows number ≡ None }
        ensures left { result ≡ false → row.new ≡ row.old }
        ensures same_room { length row.new ≡ length row.old }
    {
        if number as usize >= self.order.len() {
            return false;
        }
        let place = self.order[number as usize];
        let task = &self.tasks[place.part as usize];
        task.part.kept.read(place.row, row)
    }

    /// The number of this row, if it is there.
    pub fn find(&self, row: &[u32]) -> Option<u32>
        requires { IsParted self.now }
        ensures found { IfSome result (λ number. IsRow (nodes_in self.now) number row.now) }
        ensures absent { result ≡ None →
            (i : ℕ) → slice_get (nodes_in self.now).rows i ≢ Some row.now }
    {
        let home = home_of(row, self.tasks.len());
        let task = &self.tasks[home as usize];
        let place = task.part.kept.find(row)?;
        task.part.number_of(place)
    }

    /// The number of this row, which becomes the last one where it is not there. Fails only when
    /// out of memory, or of numbers after 2^32 - 1 rows.
    #[inline(never)]
    pub fn insert(&mut self, row: &[u32]) -> Result<u32, AllocError>
        requires whole { IsParted self.old }
        requires wide { length row.now ≡ self.old.width }
        ensures whole { IsParted self.new }
        ensures same_width { self.new.width ≡ self.old.width }
        ensures interned { IfOk result (λ number.
            IsInterned (nodes_in self.old) (nodes_in self.new) row.now number) }
        ensures unchanged { OnErr result (nodes_in self.new ≡ nodes_in self.old) }
    {
        let part = home_of(row, self.tasks.len());
        let row = self.add(part, row)?;
        self.number(Place { part, row })
    }

    /// Where this row is in its part, which it comes to where it is not there. Fails only when out
    /// of memory, or of numbers after 2^32 - 1 rows.
    fn add(&mut self, part: u32, row: &[u32]) -> Result<u32, AllocError>
        requires whole { IsParted self.old }
        requires wide { length row.now ≡ self.old.width }
        requires within { part < length self.old.tasks.items }
        requires home { part ≡ home_of (length self.old.tasks.items) row.now }
        ensures whole { IsParted self.new }
        ensures same_width { self.new.width ≡ self.old.width }
        ensures same_nodes { nodes_in self.new ≡ nodes_in self.old }
        ensures there { IfOk result (λ place.
            HasPlace self.new.tasks.items (record { part = part; row = place }) row.now) }
    {
        let task = &mut self.tasks[part as usize];
        task.part.add(row)
    }

    /// The number of the row at this place, which gets the next one where it has none. Fails only
    /// when out of memory, or of numbers after 2^32 - 1 rows.
    pub fn number(&mut self, place: Place) -> Result<u32, AllocError>
        requires whole { IsParted self.old }
        requires there { (row : List ℕ) × HasPlace self.old.tasks.items place row }
        ensures whole { IsParted self.new }
        ensures same_width { self.new.width ≡ self.old.width }
        ensures interned { IfOk result (λ number. (row : List ℕ) →
            HasPlace self.old.tasks.items place row →
            IsInterned (nodes_in self.old) (nodes_in self.new) row number) }
        ensures unchanged { OnErr result (nodes_in self.new ≡ nodes_in self.old) }
        ensures same_found { (sent : Sent) (row : List ℕ) →
            IsFoundFor self.old.tasks.items sent row →
            IsFoundFor self.new.tasks.items sent row }
    {
        let task = &self.tasks[place.part as usize];
        if let Some(number) = task.part.number_of(place.row) {
            return Ok(number);
        }
        let number = self.order.len() as u32;
        if number == u32::MAX {
            return Err(AllocError);
        }
        self.order.push(place)?;
        let task = &mut self.tasks[place.part as usize];
        task.part.numbers[place.row as usize] = number + 1;
        Ok(number)
    }
}
