//! Harts and a memory into which kept states are loaded.
#![tactic(auto, unfolding(cheri_model::specs::runs::Machine::hart_at))]

ghost use Rattle.std.specs.Prelude.{◌≡◌, ◌+◌, ◌*◌, ◌<◌, ◌≤◌, length, slice_set, Some, IsSome, IfOk};
ghost use Rattle.cheri_model.specs.runs.Machine.{MachineState, hart_at};
ghost use Rattle.cheri_model.specs.steps.Hart.{register};
ghost use Rattle.cheri_model.specs.steps.Memory.{granule_at};
ghost use Rattle.state_store.specs.Stores.{state_of};

use cap_ops::Cap;
use cheri_model::{GRANULE_BYTES, NoMemory, RAM_BASE, Reg, Status};
use conditions::StateView;
use hart::Hart;
use state_store::State;
use std::alloc::{AllocError, Global};
use std::marker::Model;
use tagged_mem::Ram;

/// A state in memory, of as many harts and granules as the states that are loaded into it.
/// Contracts see the state.
#[derive(Drop)]
pub struct Loaded {
    harts: Vec<Hart>,
    ram: Ram,
}

impl Model for Loaded {
    ghost use Rattle.cheri_model.specs.runs.Machine.{MachineState};

    ghost Value = { MachineState };

    ghost view = { λ l. record { harts = l.harts.items; memory = l.ram } };
}

/// Loads the harts of a state.
fn load_harts(state: State<'_>, harts: &mut [Hart])
    requires state { IsSome (state_of state.store.now state.row.now) }
    requires harts { length state.row.now ≡ length harts.old + 1 }
    ensures { (s : MachineState) → state_of state.entry.store.now state.entry.row.now ≡ Some s →
        harts.new ≡ s.harts }
{
    for number in 0..harts.len() {
        state.load_hart(number, &mut harts[number]);
    }
}

/// Loads the memory of a state.
fn load_ram(state: State<'_>, ram: &mut Ram)
    requires state { IsSome (state_of state.store.now state.row.now) }
    requires granules { length ram.old ≡ state.store.now.granules }
    ensures { (s : MachineState) → state_of state.entry.store.now state.entry.row.now ≡ Some s →
        ram.new ≡ s.memory }
{
    // Its clause says how large RAM may be.
    let count = ram.granule_count();
    let mut addr = RAM_BASE;
    for number in 0..count {
        ram.store_cap(addr, state.granule(number));
        addr += u64::from(GRANULE_BYTES);
    }
}

impl Loaded {
    /// A state of these harts and this memory. Fails only when out of memory.
    pub fn new(alloc: Global, harts: &[Hart], ram: &Ram) -> Result<Loaded, NoMemory>
        ensures { IfOk result (λ loaded.
            loaded ≡ record { harts = harts.now; memory = ram.now }) }
    {
        let harts = Vec::from_slice(alloc, harts)?;
        match ram.copy(alloc) {
            Ok(ram) => Ok(Loaded { harts, ram }),
            Err(_) => Err(AllocError),
        }
    }

    /// The harts.
    pub fn harts(&self) -> &[Hart]
        ensures { result.now ≡ self.now.harts }
    {
        self.harts.as_slice()
    }

    /// The memory.
    pub fn ram(&self) -> &Ram
        ensures { result.now ≡ self.now.memory }
    {
        &self.ram
    }

    /// Loads a state.
    pub fn load(&mut self, state: State<'_>)
        requires state { IsSome (state_of state.store.now state.row.now) }
        requires harts { length state.row.now ≡ length self.old.harts + 1 }
        requires granules { length self.old.memory ≡ state.store.now.granules }
        ensures { (s : MachineState) → state_of state.entry.store.now state.entry.row.now ≡ Some s →
            self.new ≡ s }
    {
        load_harts(state, self.harts.as_mut_slice());
        load_ram(state, &mut self.ram);
    }

    /// Puts a hart in the place of the one with this number.
    pub fn put_hart(&mut self, number: usize, hart: &Hart)
        requires { number < length self.old.harts }
        ensures { self.new ≡ record self.old { harts = slice_set self.old.harts number hart.now } }
    {
        self.harts[number] = *hart;
    }
}

impl StateView for Loaded {
    ghost state = { λ l. l };

    fn hart_count(&self) -> usize {
        self.harts.len()
    }

    fn granule_count(&self) -> usize {
        self.ram.granule_count()
    }

    fn register(&self, hart: usize, reg: Reg) -> Cap {
        self.harts[hart].register(reg)
    }

    fn pcc(&self, hart: usize) -> Cap {
        self.harts[hart].pcc()
    }

    fn status(&self, hart: usize) -> Status {
        self.harts[hart].status()
    }

    fn granule(&self, number: usize) -> Cap {
        self.ram.granule(number)
    }
}
