//! Numbers of what runs leave, most of which was numbered before.

ghost use Rattle.std.specs.Prelude.{◌≡◌, ◌<◌, ℕ, [], Some, None, length, slice_get, IfOk, IfSome};
ghost use Rattle.std.specs.Prelude.{OnOk};
ghost use Rattle.state_store.specs.Stores.{hart_at, memory_at, Keeps};
ghost use Rattle.sample_tallies.specs.Known.{Adds, AddsMemory, IsKnown};

use crate::changed::list_changed;
use crate::same::{are_same_changes, is_same_hart};
use cheri_model::Reg;
use hart::Hart;
use sample_runs::RunMemory;
use sample_steps::Change;
use state_store::Store;
use std::alloc::{AllocError, Global};
use std::marker::Model;
use tagged_mem::Ram;

/// How many harts are kept beside their numbers.
const KNOWN_HARTS: usize = 256;

/// How many memories are.
const KNOWN_MEMORIES: usize = 1024;

/// What hashes are multiplied by: odd, its bits without a pattern.
const FACTOR: u64 = 0x9E37_79B9_7F4A_7C15;

/// A hart, and its number.
#[derive(Clone, Copy)]
pub struct KnownHart {
    pub number: u32,
    pub hart: Hart,
}

/// The number of a memory that differs from the opening one in these granules.
#[derive(Drop)]
pub struct KnownMemory {
    pub number: u32,
    pub changed: Vec<Change>,
}

/// A store for states in which runs of a machine end, which also keeps some harts and memories
/// beside their numbers, so that these are found without looking up each value.
#[derive(Drop)]
pub struct Numbering {
    store: Store,
    /// The number of the memory before the first step, once a run has ended.
    opening: Option<u32>,
    harts: Vec<KnownHart>,
    memories: Vec<KnownMemory>,
    /// What is changed in the memory that is numbered.
    changed: Vec<Change>,
}

impl Model for Numbering {
    ghost use Rattle.sample_tallies.specs.Known.{NumberingParts, opening_of, IsNumbering};

    ghost Value = { NumberingParts };

    ghost view = { λ n. record {
      store = n.store;
      opening = opening_of n.store n.opening;
    } };

    ghost invariant = { λ n. IsNumbering n.store n.opening n.harts.items n.memories.items };
}

/// Where a hart is kept. Others may be kept there, too.
fn place_of_hart(hart: &Hart) -> usize
    ensures { result < KNOWN_HARTS }
{
    let mut hash = hart.pcc().addr();
    for number in 1..32u8 {
        hash = hash.rotate_left(9) ^ hart.register(Reg::new(number)).addr();
    }
    (hash.wrapping_mul(FACTOR) >> 56) as usize
}

/// Where a memory with these changes is kept. Others may be kept there, too.
fn place_of_memory(changed: &[Change]) -> usize
    ensures { result < KNOWN_MEMORIES }
{
    let mut hash = 0;
    for change in changed {
        hash = (hash ^ change.value.addr() ^ change.granule as u64).wrapping_mul(FACTOR);
    }
    (hash.wrapping_mul(FACTOR) >> 54) as usize
}

/// Keeps a hart beside its number, in this place. Fails only when out of memory.
fn keep_hart(
    harts: &mut Vec<KnownHart>,
    place: usize,
    number: u32,
    hart: &Hart,
) -> Result<(), AllocError>
    ensures { Adds harts.old.items (record { number = number; hart = hart.now }) harts.new.items }
{
    while harts.len() <= place {
        harts.push(KnownHart {
            number,
            hart: *hart,
        })?;
    }
    harts[place] = KnownHart {
        number,
        hart: *hart,
    };
    Ok(())
}

/// The number of a hart that is kept in this place, if it is this one.
fn found_hart(harts: &[KnownHart], place: usize, hart: &Hart) -> Option<u32>
    ensures { IfSome result (λ number. (k : ℕ)
        × (slice_get harts.now k ≡ Some (record { number = number; hart = hart.now }))) }
{
    if place >= harts.len() {
        return None;
    }
    let known = &harts[place];
    if !is_same_hart(&known.hart, hart) {
        return None;
    }
    Some(known.number)
}

/// Keeps a memory beside its number, in this place. Fails only when out of memory.
fn keep_memory(
    alloc: Global,
    memories: &mut Vec<KnownMemory>,
    place: usize,
    opening: u32,
    known: KnownMemory,
) -> Result<(), AllocError>
    ensures { AddsMemory opening memories.old.items known memories.new.items }
{
    while memories.len() <= place {
        memories.push(KnownMemory {
            number: opening,
            changed: Vec::new(alloc),
        })?;
    }
    memories[place] = known;
    Ok(())
}

/// The number of a memory that is kept in this place, if it has just these changes.
fn found_memory(memories: &[KnownMemory], place: usize, changed: &[Change]) -> Option<u32>
    ensures { IfSome result (λ number. IsKnown memories.now changed.now number) }
{
    if place >= memories.len() {
        return None;
    }
    let known = &memories[place];
    if !are_same_changes(known.changed.as_slice(), changed) {
        return None;
    }
    Some(known.number)
}

impl Numbering {
    /// Nothing, for memories of so many granules. Allocates nothing.
    pub fn new(alloc: Global, granules: usize) -> Numbering
        ensures values { result.store.values ≡ [] }
        ensures harts { result.store.harts ≡ [] }
        ensures memories { result.store.memories ≡ [] }
        ensures granules { result.store.granules ≡ granules }
        ensures opening { result.opening ≡ None }
    {
        Numbering {
            store: Store::new(alloc, granules),
            opening: None,
            harts: Vec::new(alloc),
            memories: Vec::new(alloc),
            changed: Vec::new(alloc),
        }
    }

    /// The store.
    pub fn store(&self) -> &Store
        ensures { result.now ≡ self.now.store }
    {
        &self.store
    }

    /// The number of a hart. Fails only when out of memory or of numbers, as the next calls.
    pub fn number_hart(&mut self, hart: &Hart) -> Result<u32, AllocError>
        ensures numbered { IfOk result (λ id. hart_at self.new.store id ≡ Some hart.now) }
        ensures kept { Keeps self.old.store self.new.store }
        ensures opening { self.new.opening ≡ self.old.opening }
    {
        let place = place_of_hart(hart);
        if let Some(number) = found_hart(self.harts.as_slice(), place, hart) {
            return Ok(number);
        }
        let number = self.store.number_hart(hart)?;
        keep_hart(&mut self.harts, place, number, hart)?;
        Ok(number)
    }

    /// The number of a memory.
    pub fn number_memory(&mut self, alloc: Global, ram: &Ram) -> Result<u32, AllocError>
        requires { length ram.now ≡ self.old.store.granules }
        ensures numbered { IfOk result (λ id. memory_at self.new.store id ≡ Some ram.now) }
        ensures kept { Keeps self.old.store self.new.store }
        ensures opening { self.new.opening ≡ self.old.opening }
    {
        self.store.number_memory(alloc, ram)
    }

    /// The number of the opening memory, which is numbered at the first call.
    fn number_opening(&mut self, alloc: Global, opening: &Ram) -> Result<u32, AllocError>
        requires granules { length opening.now ≡ self.old.store.granules }
        requires same { IfSome self.old.opening (λ o. o ≡ opening.now) }
        ensures numbered { IfOk result (λ id. memory_at self.new.store id ≡ Some opening.now) }
        ensures kept { Keeps self.old.store self.new.store }
        ensures opening { OnOk result (self.new.opening ≡ Some opening.now) }
        ensures same { IfSome self.new.opening (λ o. o ≡ opening.now) }
    {
        if let Some(number) = self.opening {
            return Ok(number);
        }
        let number = self.store.number_memory(alloc, opening)?;
        self.memories.clear();
        self.opening = Some(number);
        Ok(number)
    }

    /// The number of a memory that a run left, which opened as those before.
    pub fn number_left(&mut self, alloc: Global, memory: &RunMemory) -> Result<u32, AllocError>
        requires granules { length memory.now.now ≡ self.old.store.granules }
        requires opening { IfSome self.old.opening (λ o. o ≡ memory.now.opening) }
        ensures numbered { IfOk result (λ id. memory_at self.new.store id ≡ Some memory.now.now) }
        ensures kept { Keeps self.old.store self.new.store }
        ensures opening { IfSome self.new.opening (λ o. o ≡ memory.now.opening) }
    {
        let opening = self.number_opening(alloc, memory.opening())?;
        if !list_changed(memory, &mut self.changed)? {
            return self.store.number_memory(alloc, memory.ram());
        }
        let place = place_of_memory(self.changed.as_slice());
        if let Some(number) = found_memory(
            self.memories.as_slice(),
            place,
            self.changed.as_slice(),
        ) {
            return Ok(number);
        }
        let number = self.store.number_memory(alloc, memory.ram())?;
        let changed = Vec::from_slice(alloc, self.changed.as_slice())?;
        let known = KnownMemory { number, changed };
        keep_memory(alloc, &mut self.memories, place, opening, known)?;
        Ok(number)
    }
}
