//! The store.

ghost use Rattle.std.specs.Prelude.{
  ◌≡◌,
  ◌≢◌,
  ℕ,
  ◌<◌,
  [],
  List,
  Some,
  length,
  slice_get,
  slice_set,
  IsSome,
  IfOk,
  OnErr,
};
ghost use Rattle.cap_model.specs.values.CapValue.{CapValue};
ghost use Rattle.cheri_model.specs.steps.Hart.{HartState};
ghost use Rattle.cheri_model.specs.runs.Sweeps.{swept_memory};
ghost use Rattle.state_store.specs.Numbered.{Extends, IsThereOrLast};
ghost use Rattle.state_store.specs.Stores.{hart_at, memory_at, Keeps, IsOneRow};

use crate::harts::{HART_WIDTH, load_hart, row_of_hart};
use crate::memories::{Memories, row_of_memory};
use crate::values::Values;
use cap_ops::Cap;
use cheri_model::Value;
use hart::Hart;
use interner::Interner;
use std::alloc::{AllocError, Global};
use std::marker::Model;
use tagged_mem::Ram;

/// Values, harts and memories, each kept once under a number of its own. All memories have as many
/// granules.
#[derive(Drop)]
pub struct Store {
    values: Values,
    harts: Interner,
    memories: Memories,
    granules: usize,
}

impl Model for Store {
    ghost use Rattle.state_store.specs.Stores.{Stored, IsStore};

    ghost Value = { Stored };

    ghost view = { λ a. record {
      values = a.values;
      harts = a.harts.rows;
      memories = a.memories.rows;
      granules = a.granules;
    } };

    ghost invariant = { λ a. IsStore a.values a.harts a.memories a.granules };
}

impl Store {
    /// Nothing, for memories of so many granules.
    pub fn new(alloc: Global, granules: usize) -> Store
        ensures values { result.values ≡ [] }
        ensures harts { result.harts ≡ [] }
        ensures memories { result.memories ≡ [] }
        ensures granules { result.granules ≡ granules }
    {
        Store {
            values: Values::new(alloc),
            harts: Interner::new(alloc, HART_WIDTH),
            memories: Memories::new(alloc, granules),
            granules,
        }
    }

    /// How many granules a memory has. No state is two rows.
    pub fn granules(&self) -> usize
        ensures count { result ≡ self.now.granules }
        ensures one_row { IsOneRow self.now }
    {
        // Their clauses say that nothing is there twice.
        let _counts = (self.values.len(), self.harts.len(), self.memories.len());
        self.granules
    }

    /// How many harts there are.
    pub fn hart_count(&self) -> usize
        ensures { result ≡ length self.now.harts }
    {
        self.harts.len()
    }

    /// The number of a value. Fails only when out of memory, or of numbers, as all calls here that
    /// may add something.
    pub fn number_value(&mut self, value: Value) -> Result<u32, AllocError>
        ensures numbered { IfOk result (λ id. slice_get self.new.values id ≡ Some value) }
        ensures kept { Keeps self.old self.new }
        ensures same_harts { self.new.harts ≡ self.old.harts }
    {
        self.values.number(value)
    }

    /// The value of this number.
    pub fn value(&self, id: u32) -> Value
        requires { id < length self.now.values }
        ensures { slice_get self.now.values id ≡ Some result }
    {
        self.values.value(id)
    }

    /// The number of a hart.
    pub fn number_hart(&mut self, hart: &Hart) -> Result<u32, AllocError>
        ensures numbered { IfOk result (λ id. hart_at self.new id ≡ Some hart.now) }
        ensures added { IfOk result (λ id. IsThereOrLast self.old.harts self.new.harts id) }
        ensures refused { OnErr result (self.new.harts ≡ self.old.harts) }
        ensures kept { Keeps self.old self.new }
    {
        let row = row_of_hart(&mut self.values, hart)?;
        let id = self.harts.insert(&row)?;
        Ok(id)
    }

    /// Writes the hart of this number.
    pub fn load_hart(&self, id: u32, hart: &mut Hart)
        requires { IsSome (hart_at self.now id) }
        ensures { hart_at self.now id ≡ Some hart.new }
    {
        let Some(row) = self.harts.row(id) else {
            unreachable!()
        };
        load_hart(&self.values, row, hart);
    }

    /// The row of this hart's numbers: its status, PCC and the registers from c1 on.
    pub fn hart(&self, id: u32) -> &[u32]
        requires { IsSome (hart_at self.now id) }
        ensures { slice_get self.now.harts id ≡ Some result.now }
    {
        let Some(row) = self.harts.row(id) else {
            unreachable!()
        };
        row
    }

    /// The row of this memory's numbers, one for each granule.
    pub fn memory(&self, id: u32) -> &[u32]
        requires { IsSome (memory_at self.now id) }
        ensures row { slice_get self.now.memories id ≡ Some result.now }
        ensures wide { length result.now ≡ self.now.granules }
    {
        let Some(row) = self.memories.row(id) else {
            unreachable!()
        };
        row
    }

    /// The number of a memory.
    pub fn number_memory(&mut self, alloc: Global, ram: &Ram) -> Result<u32, AllocError>
        requires { length ram.now ≡ self.old.granules }
        ensures numbered { IfOk result (λ id. memory_at self.new id ≡ Some ram.now) }
        ensures kept { Keeps self.old self.new }
        ensures same_harts { self.new.harts ≡ self.old.harts }
    {
        let row = row_of_memory(alloc, &mut self.values, ram)?;
        let id = self.memories.insert(row.as_slice())?;
        Ok(id)
    }

    /// The number of the memory of this row.
    pub fn number_row(&mut self, row: &[u32]) -> Result<u32, AllocError>
        requires { length row.now ≡ self.old.granules }
        ensures numbered { IfOk result (λ id. slice_get self.new.memories id ≡ Some row.now) }
        ensures kept { Keeps self.old self.new }
        ensures same_harts { self.new.harts ≡ self.old.harts }
        ensures same_values { self.new.values ≡ self.old.values }
    {
        self.memories.insert(row)
    }

    /// The number of a memory with the value of another number in one granule.
    pub fn number_written(
        &mut self,
        memory: u32,
        granule: u32,
        value: u32,
    ) -> Result<u32, AllocError>
        requires memory { IsSome (memory_at self.old memory) }
        requires granule { granule < self.old.granules }
        ensures numbered { IfOk result (λ id. (row : List ℕ) →
            slice_get self.old.memories memory ≡ Some row →
            slice_get self.new.memories id ≡ Some (slice_set row granule value)) }
        ensures kept { Keeps self.old self.new }
        ensures same_harts { self.new.harts ≡ self.old.harts }
    {
        self.memories.insert_written(memory, granule, value)
    }
}
