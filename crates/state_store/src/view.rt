//! A state that is kept as a row of numbers.

ghost use Rattle.std.specs.Prelude.{◌≡◌, ℕ, ◌+◌, ◌<◌, Some, length, IsSome};
ghost use Rattle.cheri_model.specs.runs.Machine.{MachineState, hart_at};
ghost use Rattle.cheri_model.specs.steps.Hart.{register};
ghost use Rattle.cheri_model.specs.steps.Memory.{granule_at};
ghost use Rattle.state_store.specs.Stores.{state_of};

use crate::codes::status_of;
use crate::store::Store;
use cap_ops::Cap;
use cheri_model::{Reg, Status};
use hart::Hart;
use tagged_mem::Ram;

/// A state, seen where it is kept: a row of its memory's number and those of its harts.
#[derive(Clone, Copy)]
pub struct State<'a> {
    pub store: &'a Store,
    pub row: &'a [u32],
}

impl State<'_> {
    /// The number of harts.
    pub fn hart_count(self) -> usize
        requires { IsSome (state_of self.store.now self.row.now) }
        ensures { (s : MachineState) → state_of self.entry.store.now self.entry.row.now ≡ Some s →
            result ≡ length s.harts }
    {
        self.row.len() - 1
    }

    /// The number of granules.
    pub fn granule_count(self) -> usize
        requires { IsSome (state_of self.store.now self.row.now) }
        ensures { (s : MachineState) → state_of self.entry.store.now self.entry.row.now ≡ Some s →
            result ≡ length s.memory }
    {
        self.store.memory(self.row[0]).len()
    }

    /// A hart's register.
    pub fn register(self, hart: usize, reg: Reg) -> Cap
        requires state { IsSome (state_of self.store.now self.row.now) }
        requires hart { hart + 1 < length self.row.now }
        ensures { (s : MachineState) → state_of self.entry.store.now self.entry.row.now ≡ Some s →
            result ≡ register (hart_at s hart) reg }
    {
        let number = usize::from(reg.number());
        if number == 0 {
            return Cap::null();
        }
        let row = self.store.hart(self.row[hart + 1]);
        Cap::of_value(self.store.value(row[number + 1]))
    }

    /// A hart's PCC.
    pub fn pcc(self, hart: usize) -> Cap
        requires state { IsSome (state_of self.store.now self.row.now) }
        requires hart { hart + 1 < length self.row.now }
        ensures { (s : MachineState) → state_of self.entry.store.now self.entry.row.now ≡ Some s →
            result ≡ (hart_at s hart).pcc }
    {
        let row = self.store.hart(self.row[hart + 1]);
        Cap::of_value(self.store.value(row[1]))
    }

    /// Whether a hart runs.
    pub fn status(self, hart: usize) -> Status
        requires state { IsSome (state_of self.store.now self.row.now) }
        requires hart { hart + 1 < length self.row.now }
        ensures { (s : MachineState) → state_of self.entry.store.now self.entry.row.now ≡ Some s →
            result ≡ (hart_at s hart).status }
    {
        status_of(self.store.hart(self.row[hart + 1])[0])
    }

    /// The value of a granule.
    pub fn granule(self, number: usize) -> Cap
        requires state { IsSome (state_of self.store.now self.row.now) }
        requires granule { number < self.store.now.granules }
        ensures { (s : MachineState) → state_of self.entry.store.now self.entry.row.now ≡ Some s →
            result ≡ granule_at s.memory number }
    {
        let row = self.store.memory(self.row[0]);
        Cap::of_value(self.store.value(row[number]))
    }

    /// Writes a hart.
    pub fn load_hart(self, number: usize, hart: &mut Hart)
        requires state { IsSome (state_of self.store.now self.row.now) }
        requires hart { number + 1 < length self.row.now }
        ensures { (s : MachineState) → state_of self.entry.store.now self.entry.row.now ≡ Some s →
            hart.new ≡ hart_at s number }
    {
        self.store.load_hart(self.row[number + 1], hart);
    }
}
