//! The graph of a machine's states.

ghost use Rattle.std.specs.Prelude.{
  ◌≡◌,
  ℕ,
  ◌+◌,
  ◌*◌,
  ◌<◌,
  ◌≤◌,
  List,
  length,
  slice_get,
  slice_set,
  option_map,
  map,
  take,
  ◌-◌,
  if◌then◌else◌,
  Some,
  IsSome,
  IfOk,
};
ghost use Rattle.cap_model.specs.values.CapValue.{CapValue};
ghost use Rattle.cheri_model.specs.runs.Machine.{MachineState};
ghost use Rattle.cheri_model.specs.steps.Hart.{HartState};
ghost use Rattle.cheri_model.specs.runs.Sweeps.{swept_memory, swept_hart};
ghost use Rattle.graph_search.specs.Graphs.{LeadsTo};
ghost use Rattle.explore_turns.specs.Turns.{resting, rest_by, turn_by};
ghost use Rattle.schedules.specs.Schedules.{taken, sweep_of};
ghost use Rattle.state_store.specs.Stores.{hart_at, memory_at};
ghost use Rattle.states.specs.Graphs.{state_in, rests_in, rest_in, turn_in, Continues, Runs};
ghost use Rattle.states.specs.Locals.{local_step, local_value, IsLocalStep};

use crate::locals::{LocalStep, STOPPED, granule_address, site_of};
use crate::steps::{KnownStep, Steps};
use crate::sweeping::sweep_row;
use cap_ops::Cap;
use cheri_model::{ADDRESS_SPACE, Image, Value};
use explore_sights::Sight;
use explore_turns::rest;
use graph_search::Graph;
use hart::Hart;
use hart_step::step;
use schedules::SweepRange;
use state_store::Store;
use std::alloc::{AllocError, Global};
use std::marker::Model;
use tagged_mem::Ram;

/// The most sweeps that a search takes.
pub const MAX_SWEEPS: usize = 8;

/// The states of an image's machine in which each hart is at its rest, as a graph: an edge for the
/// turn of each hart that runs, and one for that of each sweep.
#[derive(Drop)]
pub struct MachineGraph {
    image: Image,
    sweeps: Vec<SweepRange>,
    sight: Sight,
    store: Store,
    /// For each hart its site.
    sites: Vec<u32>,
    /// The steps that were computed.
    steps: Steps,
    /// Any hart, and a memory and a row of one, to work in.
    blank: Hart,
    ram: Ram,
    row: Vec<u32>,
}

impl Model for MachineGraph {
    ghost use Rattle.states.specs.Graphs.{GraphParts, IsGraph};

    ghost Value = { GraphParts };

    ghost view = { λ a. record {
      image = a.image;
      sweeps = a.sweeps.items;
      sight = a.sight;
      store = a.store;
    } };

    ghost invariant = { λ a. IsGraph a.image a.sweeps.items a.sight a.store a.sites.items a.steps
        a.ram a.row.items };
}

/// Drops the last item unless it is to be kept.
fn keep_last_if<T: Drop>(items: &mut Vec<T>, keep: bool)
    ensures { items.new.items
        ≡ (if keep then items.old.items else take (length items.old.items - 1) items.old.items) }
{
    if !keep {
        items.pop();
    }
}

impl MachineGraph {
    /// The graph of an image. Nothing is known of its states yet.
    pub fn new(
        alloc: Global,
        image: Image,
        sweeps: Vec<SweepRange>,
        sight: Sight,
        ram: Ram,
    ) -> Result<MachineGraph, AllocError>
        requires few { length sweeps.items ≤ MAX_SWEEPS }
        requires size { 16 * length ram ≡ image.ram }
        ensures image { IfOk result (λ graph. graph.image ≡ image) }
        ensures granules { IfOk result (λ graph. graph.store.granules ≡ length ram) }
        ensures sweeps { IfOk result (λ graph. graph.sweeps ≡ sweeps.items) }
        ensures sight { IfOk result (λ graph. graph.sight ≡ sight) }
    {
        // Its clause says that there are from 1 to 8 harts, and how large RAM is.
        let _granules = image.granules();
        let granules = ram.granule_count();
        let mut row = Vec::new(alloc);
        row.resize(granules, 0)?;
        let blank = Hart::open(&image.harts()[0]);
        Ok(MachineGraph {
            image,
            sweeps,
            sight,
            store: Store::new(alloc, granules),
            sites: Vec::new(alloc),
            steps: Steps::new(alloc),
            blank,
            ram,
            row,
        })
    }

    /// The node of a state with each hart at its rest. Fails only when out of memory, or of numbers,
    /// as all calls here that may add something.
    pub fn node(&mut self, alloc: Global, harts: &[Hart], ram: &Ram) -> Result<Vec<u32>, AllocError>
        requires harts { length harts.now ≡ length self.old.image.harts }
        requires size { length ram.now ≡ self.old.store.granules }
        ensures node { IfOk result (λ node.
            state_in self.new node.items
            ≡ Some (rest_in self.old (record { harts = harts.now; memory = ram.now }))) }
        ensures continues { Continues self.old self.new }
    {
        let mut node = Vec::with_capacity(alloc, harts.len() + 1)?;
        let memory = self.number_memory(alloc, ram)?;
        node.push(memory)?;
        for hart in harts {
            let number = self.number_hart(hart)?;
            node.push(number)?;
        }
        Ok(node)
    }

    /// What the graph knows of its states.
    pub fn store(&self) -> &Store
        ensures { result.now ≡ self.now.store }
    {
        &self.store
    }

    /// The image.
    pub fn image(&self) -> &Image
        ensures { result.now ≡ self.now.image }
    {
        &self.image
    }

    /// What the question sees.
    pub fn sight(&self) -> &Sight
        ensures { result.now ≡ self.now.sight }
    {
        &self.sight
    }

    /// The sweeps.
    pub fn sweeps(&self) -> &[SweepRange]
        ensures { result.now ≡ self.now.sweeps }
    {
        self.sweeps.as_slice()
    }

    /// The number of a memory.
    fn number_memory(&mut self, alloc: Global, ram: &Ram) -> Result<u32, AllocError>
        requires { length ram.now ≡ self.old.store.granules }
        ensures continues { Continues self.old self.new }
        ensures numbered { IfOk result (λ id. memory_at self.new.store id ≡ Some ram.now) }
    {
        self.store.number_memory(alloc, ram)
    }

    /// The number of a hart at its rest.
    pub fn number_hart(&mut self, hart: &Hart) -> Result<u32, AllocError>
        ensures continues { Continues self.old self.new }
        ensures numbered { IfOk result (λ id.
            hart_at self.new.store id ≡ Some (rests_in self.old hart.now)) }
    {
        let hart = rest(
            self.image.program(),
            self.sweeps.as_slice(),
            &self.sight,
            hart,
            &mut self.ram,
        );
        let site = site_of(self.image.program(), self.store.granules(), &hart);
        self.sites.push(site)?;
        let before = self.store.hart_count();
        let number = self.store.number_hart(&hart);
        let grown = self.store.hart_count() > before;
        keep_last_if(&mut self.sites, grown);
        number
    }

    /// The step of a hart with this number to its rest, where its granule has the value with this
    /// number.
    fn local_step(&mut self, hart: u32, value: u32) -> Result<LocalStep, AllocError>
        requires hart { Runs self.old.store hart }
        requires value { value < length self.old.store.values }
        ensures continues { Continues self.old self.new }
        ensures step { IfOk result (IsLocalStep self.old.image.program (rests_in self.old)
            self.new.store hart value) }
    {
        match self.steps.find(hart, value) {
            Some(after) => Ok(after),
            None => self.compute(hart, value),
        }
    }

    /// Computes a step.
    fn compute(&mut self, hart: u32, value: u32) -> Result<LocalStep, AllocError>
        requires hart { Runs self.old.store hart }
        requires value { value < length self.old.store.values }
        ensures continues { Continues self.old self.new }
        ensures step { IfOk result (IsLocalStep self.old.image.program (rests_in self.old)
            self.new.store hart value) }
    {
        let (stepped, left) = self.take_step(hart, value);
        let hart_after = self.number_hart(&stepped)?;
        let value_after = self.number_value(left)?;
        let after = LocalStep {
            hart: hart_after,
            value: value_after,
        };
        self.keep_step(hart, value, after)?;
        Ok(after)
    }

    /// What the step of a hart with this number makes of the hart, and what it leaves in the hart's
    /// granule, where that has the value with this number.
    fn take_step(&mut self, hart: u32, value: u32) -> (Hart, Value)
        requires hart { Runs self.old.store hart }
        requires value { value < length self.old.store.values }
        ensures same { self.new ≡ self.old }
        ensures hart { (h : HartState) (v : CapValue) → hart_at self.old.store hart ≡ Some h →
            slice_get self.old.store.values value ≡ Some v → result.0
            ≡ (local_step self.old.image.program self.old.store.granules h v).hart }
        ensures value { (h : HartState) (v : CapValue) → hart_at self.old.store hart ≡ Some h →
            slice_get self.old.store.values value ≡ Some v → result.1
            ≡ local_value self.old.image.program self.old.store.granules h v }
    {
        let site = self.sites[hart as usize];
        let granule = Cap::of_value(self.store.value(value));
        let mut stepped = self.blank;
        self.store.load_hart(hart, &mut stepped);
        let addr = granule_address(site);
        self.ram.store_cap(addr, granule);
        step(self.image.program(), &mut stepped, &mut self.ram);
        (stepped, self.ram.granule(site as usize).value())
    }

    /// The number of a value.
    fn number_value(&mut self, value: Value) -> Result<u32, AllocError>
        ensures continues { Continues self.old self.new }
        ensures numbered { IfOk result (λ id. slice_get self.new.store.values id ≡ Some value) }
    {
        self.store.number_value(value)
    }

    /// Keeps a step that was computed.
    fn keep_step(&mut self, hart: u32, value: u32, after: LocalStep) -> Result<(), AllocError>
        requires { IsLocalStep self.old.image.program (rests_in self.old) self.old.store hart value
            after }
        ensures { self.new ≡ self.old }
    {
        self.steps.keep(KnownStep { hart, value, after })
    }

    /// Follows the edge of a label, as the graph's `step` does. Its clauses also say that the graph
    /// is of the same image, sweeps and sight, and that nothing gets another number.
    pub fn follow(&mut self, node: &[u32], label: u32, to: &mut [u32]) -> Result<bool, AllocError>
        requires meant { IsSome (state_in self.old node.now) }
        requires labelled { label < length self.old.image.harts + length self.old.sweeps }
        requires room { length to.old ≡ length self.old.image.harts + 1 }
        ensures continues { Continues self.old self.new }
        ensures value { IfOk result (λ leads. (s : MachineState) →
            state_in self.old node.now ≡ Some s → LeadsTo (state_in self.new) leads to.new
            (turn_in self.old s label)) }
    {
        let harts = self.image.harts().len() as u32;
        if label < harts {
            return self.step_hart(node, label, to);
        }
        let range = self.sweeps[(label - harts) as usize];
        self.sweep(node, range, to)
    }

    /// Takes a hart's turn.
    fn step_hart(&mut self, node: &[u32], hart: u32, to: &mut [u32]) -> Result<bool, AllocError>
        requires meant { IsSome (state_in self.old node.now) }
        requires there { hart < length self.old.image.harts }
        requires room { length to.old ≡ length self.old.image.harts + 1 }
        ensures continues { Continues self.old self.new }
        ensures value { IfOk result (λ leads. (s : MachineState) →
            state_in self.old node.now ≡ Some s → LeadsTo (state_in self.new) leads to.new
            (turn_in self.old s hart)) }
    {
        let place = hart as usize + 1;
        let site = self.sites[node[place] as usize];
        if site == STOPPED {
            return Ok(false);
        }
        let row = self.store.memory(node[0]);
        let value = row[site as usize];
        let after = self.local_step(node[place], value)?;
        to.copy_from_slice(node);
        to[place] = after.hart;
        if after.value == value {
            return Ok(true);
        }
        let memory = self.memory_with(node[0], site, after.value)?;
        to[0] = memory;
        Ok(true)
    }

    /// The number of a memory with another value in one granule.
    fn memory_with(&mut self, memory: u32, granule: u32, value: u32) -> Result<u32, AllocError>
        requires memory { IsSome (memory_at self.old.store memory) }
        requires granule { granule < self.old.store.granules }
        requires value { value < length self.old.store.values }
        ensures continues { Continues self.old self.new }
        ensures numbered { IfOk result (λ id. (m : List CapValue) (v : CapValue) →
            memory_at self.old.store memory ≡ Some m →
            slice_get self.old.store.values value ≡ Some v →
            memory_at self.new.store id ≡ Some (slice_set m granule v)) }
    {
        self.store.number_written(memory, granule, value)
    }

    /// Takes a sweep's turn.
    fn sweep(&mut self, node: &[u32], range: SweepRange, to: &mut [u32]) -> Result<bool, AllocError>
        requires meant { IsSome (state_in self.old node.now) }
        requires room { length to.old ≡ length self.old.image.harts + 1 }
        ensures continues { Continues self.old self.new }
        ensures value { IfOk result (λ leads. (s : MachineState) →
            state_in self.old node.now ≡ Some s → LeadsTo (state_in self.new) leads to.new
            (option_map (rest_in self.old) (taken self.old.image s (Some (sweep_of range))))) }
    {
        if u128::from(range.lo) > range.hi || range.hi > ADDRESS_SPACE {
            return Ok(false);
        }
        to.copy_from_slice(node);
        for place in 1..node.len() {
            let swept = self.swept_hart(node[place], range)?;
            to[place] = swept;
        }
        let memory = self.swept_memory(node[0], range)?;
        to[0] = memory;
        Ok(true)
    }

    /// The number of a hart after a sweep, at its rest.
    fn swept_hart(&mut self, hart: u32, range: SweepRange) -> Result<u32, AllocError>
        requires { IsSome (hart_at self.old.store hart) }
        ensures continues { Continues self.old self.new }
        ensures numbered { IfOk result (λ id. (h : HartState) →
            hart_at self.old.store hart ≡ Some h →
            hart_at self.new.store id
            ≡ Some (rests_in self.old (swept_hart range.lo range.hi h))) }
    {
        let mut swept = self.blank;
        self.store.load_hart(hart, &mut swept);
        if swept.sweep(range.lo, range.hi) == 0 {
            return Ok(hart);
        }
        self.number_hart(&swept)
    }

    /// The number of a memory after a sweep.
    fn swept_memory(&mut self, memory: u32, range: SweepRange) -> Result<u32, AllocError>
        requires { IsSome (memory_at self.old.store memory) }
        ensures continues { Continues self.old self.new }
        ensures numbered { IfOk result (λ id. (m : List CapValue) →
            memory_at self.old.store memory ≡ Some m →
            memory_at self.new.store id ≡ Some (swept_memory range.lo range.hi m)) }
    {
        self.row.copy_from_slice(self.store.memory(memory));
        sweep_row(&mut self.store, self.row.as_mut_slice(), range)?;
        self.store.number_row(self.row.as_slice())
    }
}

impl Graph for MachineGraph {
    ghost use Rattle.std.specs.Prelude.{◌+◌, length};
    ghost use Rattle.cheri_model.specs.runs.Machine.{MachineState};
    ghost use Rattle.schedules.specs.Schedules.{label_count};
    ghost use Rattle.states.specs.Graphs.{state_in, turn_in};
    ghost use Rattle.explore_turns.proofs.OrderLemmas.{turn_beyond};

    ghost State = { MachineState };

    ghost meaning = { λ g. state_in g };

    ghost next = { λ g. turn_in g };

    ghost width = { λ g. length g.image.harts + 1 };

    ghost label_count = { λ g. label_count g.image g.sweeps };

    fn width(&self) -> usize {
        self.image.harts().len() + 1
    }

    fn label_count(&self) -> u32 {
        (self.image.harts().len() + self.sweeps.len()) as u32
    }

    fn step(&mut self, node: &[u32], label: u32, to: &mut [u32]) -> Result<bool, AllocError> {
        let leads = self.follow(node, label, to);
        // Its clause says that no state is two rows.
        let _granules = self.store.granules();
        leads
    }

    ghost none_beyond = { λ g. turn_beyond g.image g.sweeps g.sight };
}
