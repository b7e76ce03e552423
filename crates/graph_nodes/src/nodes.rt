//! The nodes.

ghost use Rattle.std.specs.Prelude.{
  ◌≡◌,
  ◌≢◌,
  ℕ,
  ◌*◌,
  ◌^◌,
  ◌<◌,
  ◌≤◌,
  [],
  ◌∷◌,
  Some,
  None,
  Bool,
  if◌then◌else◌,
  length,
  slice_get,
  true,
  false,
  IfOk,
  IfSome,
  OnErr,
};
ghost use Rattle.interner.specs.Rows.{IsDistinct, IsInterned, IsRow};
ghost use Rattle.graph_nodes.specs.Joined.{targets_of, AreJoined};
ghost use Rattle.graph_nodes.specs.Joining.{IsJoining};
ghost use Rattle.graph_nodes.specs.Parted.{nodes_in, IsParted};

use crate::crew::Crew;
use crate::joining::{Joined, Joining, Stage, begin};
use crate::packed::PackedRows;
use crate::parted::Parted;
use crate::tasks::row_at;
use std::alloc::{AllocError, Global};
use std::marker::Model;

/// How nodes are kept.
#[derive(Drop)]
pub enum Form {
    /// All in one.
    Whole(PackedRows),
    /// In parts.
    Parts(Parted),
}

/// Rows of numbers, all as wide, each kept once. Rows are numbered from 0 on in the order in which
/// they came. Each is kept in one word of 64 bits, as long as they all fit.
#[derive(Drop)]
pub struct Nodes {
    form: Form,
}

impl Model for Nodes {
    ghost use Rattle.interner.specs.Rows.{Rows};
    ghost use Rattle.graph_nodes.specs.Forms.{nodes_kept, IsForm};

    ghost Value = { Rows };

    ghost view = { λ a. nodes_kept a.form };

    ghost invariant = { λ a. IsForm a.form };
}

impl Nodes {
    /// No rows, of so many numbers each. Allocates nothing.
    pub fn new(alloc: Global, width: usize) -> Nodes
        ensures width { result.width ≡ width }
        ensures rows { result.rows ≡ [] }
    {
        Nodes {
            form: Form::Whole(PackedRows::new(alloc, width)),
        }
    }

    /// The same, in so many parts, to which tasks can add rows side by side. Fails only when out of
    /// memory.
    pub fn parted(alloc: Global, width: usize, parts: u8) -> Result<Nodes, AllocError>
        ensures width { IfOk result (λ nodes. nodes.width ≡ width) }
        ensures rows { IfOk result (λ nodes. nodes.rows ≡ []) }
    {
        if parts == 0 {
            return Ok(Nodes::new(alloc, width));
        }
        let parted = Parted::new(alloc, width, parts)?;
        Ok(Nodes::from_parts(parted))
    }

    /// The nodes that are kept in these parts.
    pub(crate) fn from_parts(parted: Parted) -> Nodes
        requires { IsParted parted }
        ensures { result ≡ nodes_in parted }
    {
        Nodes {
            form: Form::Parts(parted),
        }
    }

    /// Begins to add targets, each unless it is there: of these rows those that a step leads to.
    /// Fails only when out of memory, or of numbers after 2^32 - 1 rows.
    pub fn start<C: Crew>(
        self,
        alloc: Global,
        crew: &C,
        leads: &[bool],
        rows: &[u32],
    ) -> Result<Joining<C::Begun>, AllocError>
        requires room { length leads.now * self.width ≤ length rows.now }
        ensures { IfOk result (λ joining. IsJoining C.is_of joining self
            (targets_of self.width leads.now rows.now (length leads.now))) }
    {
        match self.form {
            Form::Whole(whole) => {
                let nodes = Nodes {
                    form: Form::Whole(whole),
                };
                let joined = nodes.join(alloc, leads, rows)?;
                Ok(Joining {
                    stage: Stage::Over(joined),
                })
            }
            Form::Parts(parted) => begin(alloc, crew, parted, leads, rows),
        }
    }

    /// Adds targets, each unless it is there.
    fn join(mut self, alloc: Global, leads: &[bool], rows: &[u32]) -> Result<Joined, AllocError>
        requires room { length leads.now * self.width ≤ length rows.now }
        ensures joined { IfOk result (λ joined. AreJoined
            (targets_of self.width leads.now rows.now (length leads.now))
            joined.fresh.items self.rows joined.nodes.rows) }
        ensures width { IfOk result (λ joined. joined.nodes.width ≡ self.width) }
    {
        let width = self.width();
        let mut fresh = Vec::new(alloc);
        for k in 0..leads.len() {
            let new = self.join_one(leads[k], row_at(rows, width, k))?;
            fresh.push(new)?;
        }
        Ok(Joined { nodes: self, fresh })
    }

    /// Adds a target, unless it is there. Whether it was new.
    fn join_one(&mut self, leads: bool, row: &[u32]) -> Result<bool, AllocError>
        requires wide { length row.now ≡ self.old.width }
        ensures joined { IfOk result (λ fresh. AreJoined
            ((if leads then Some row.now else None) ∷ []) (fresh ∷ [])
            self.old.rows self.new.rows) }
        ensures same_width { self.new.width ≡ self.old.width }
    {
        if !leads {
            return Ok(false);
        }
        let before = self.len();
        self.insert(row)?;
        Ok(before < self.len())
    }

    /// How many numbers a row has.
    pub fn width(&self) -> usize
        ensures { result ≡ self.now.width }
    {
        match &self.form {
            Form::Whole(rows) => rows.width(),
            Form::Parts(parted) => parted.width,
        }
    }

    /// How many rows there are: fewer than 2^32, and no two of them the same.
    pub fn len(&self) -> usize
        ensures count { result ≡ length self.now.rows }
        ensures few { result < 2 ^ 32 }
        ensures distinct { IsDistinct self.now }
    {
        match &self.form {
            Form::Whole(rows) => rows.len(),
            Form::Parts(parted) => parted.len(),
        }
    }

    /// Writes the row of this number. False where there is none, and then nothing is written.
    pub fn read(&self, number: u32, row: &mut [u32]) -> bool
        requires room { length row.old ≡ self.now.width }
        ensures row { result ≡ true → slice_get self.now.rows number ≡ Some row.new }
        ensures none { result ≡ false → slice_get self.now.rows number ≡ None }
        ensures left { result ≡ false → row.new ≡ row.old }
        ensures same_room { length row.new ≡ length row.old }
    {
        match &self.form {
            Form::Whole(rows) => rows.read(number, row),
            Form::Parts(parted) => parted.read(number, row),
        }
    }

    /// The number of this row, if it is there.
    pub fn find(&self, row: &[u32]) -> Option<u32>
        ensures found { IfSome result (λ number. IsRow self.now number row.now) }
        ensures absent { result ≡ None → (i : ℕ) → slice_get self.now.rows i ≢ Some row.now }
    {
        match &self.form {
            Form::Whole(rows) => rows.find(row),
            Form::Parts(parted) => parted.find(row),
        }
    }

    /// The number of this row, which becomes the last one where it is not there. Fails only when out
    /// of memory, or of numbers after 2^32 - 1 rows; then nothing changes.
    pub fn insert(&mut self, row: &[u32]) -> Result<u32, AllocError>
        requires { length row.now ≡ self.old.width }
        ensures interned { IfOk result (λ number. IsInterned self.old self.new row.now number) }
        ensures same_width { self.new.width ≡ self.old.width }
        ensures unchanged { OnErr result (self.new ≡ self.old) }
    {
        match &mut self.form {
            Form::Whole(rows) => rows.insert(row),
            Form::Parts(parted) => parted.insert(row),
        }
    }
}
