//! A memory that can be brought back to what it was.

ghost use Rattle.std.specs.Prelude.{◌≡◌, ◌<◌, true, false, [], ◌∷◌, ◌++◌, All, length};
ghost use Rattle.std.specs.Prelude.{IfSome, IfOk, OnOk};
ghost use Rattle.cheri_model.specs.runs.Sweeps.{swept_memory};
ghost use Rattle.cheri_model.specs.steps.HartStep.{hart_step};
ghost use Rattle.sample_draws.specs.Orders.{is_changed};
ghost use Rattle.sample_steps.specs.Hangs.{all_stay};
ghost use Rattle.sample_steps.specs.declared.writes.Change.{Change};
ghost use Rattle.sample_runs.specs.Memories.{undone, LeadBack};

use cheri_model::Instr;
use hart::Hart;
use sample_steps::{Change, all_stay, put_granule, step_hart};
use std::alloc::{AllocError, Global};
use std::marker::Model;
use tagged_mem::Ram;

/// A memory to run in. What steps change is noted, so that it can be brought back to what it was in
/// the time of these changes, and without a copy.
#[derive(Drop)]
pub struct RunMemory {
    opening: Ram,
    ram: Ram,
    changes: Vec<Change>,
    /// Not all changes are noted.
    whole: bool,
}

impl Model for RunMemory {
    ghost use Rattle.sample_runs.specs.Memories.{MemoryParts, IsRunMemory};

    ghost Value = { MemoryParts };

    ghost view = { λ m. record {
      opening = m.opening;
      now = m.ram;
      changes = m.changes.items;
      whole = m.whole;
    } };

    ghost invariant = { λ m. IsRunMemory m.opening m.ram m.changes.items m.whole };
}

/// The same memory.
fn copied_ram(alloc: Global, ram: &Ram) -> Result<Ram, AllocError>
    ensures { IfOk result (λ copy. copy ≡ ram.now) }
{
    ram.copy(alloc).map_err(|_| AllocError)
}

/// Notes a change, where there is memory for that, and says whether there was.
fn note(changes: &mut Vec<Change>, change: Change) -> bool
    ensures noted { result ≡ true → changes.new.items ≡ changes.old.items ++ change ∷ [] }
    ensures same { result ≡ false → changes.new.items ≡ changes.old.items }
{
    changes.push(change).is_ok()
}

/// Undoes changes, the last one first, and forgets them.
fn undo(changes: &mut Vec<Change>, ram: &mut Ram)
    requires { All (λ (change : Change). change.granule < length ram.old) changes.old.items }
    ensures memory { ram.new ≡ undone changes.old.items ram.old }
    ensures none { changes.new.items ≡ [] }
{
    while let Some(change) = changes.pop() {
        put_granule(ram, change.granule, change.value);
    }
}

impl RunMemory {
    /// A memory that is now, and at first, as this one. Fails only when out of memory.
    pub fn new(alloc: Global, ram: &Ram) -> Result<RunMemory, AllocError>
        ensures opening { IfOk result (λ memory. memory.opening ≡ ram.now) }
        ensures now { IfOk result (λ memory. memory.now ≡ ram.now) }
    {
        let opening = copied_ram(alloc, ram)?;
        let ram = copied_ram(alloc, ram)?;
        Ok(RunMemory {
            opening,
            ram,
            changes: Vec::new(alloc),
            whole: false,
        })
    }

    /// The memory now.
    pub fn ram(&self) -> &Ram
        ensures { result.now ≡ self.now.now }
    {
        &self.ram
    }

    /// The memory before the first step.
    pub fn opening(&self) -> &Ram
        ensures value { result.now ≡ self.now.opening }
        ensures size { length self.now.now ≡ length self.now.opening }
    {
        &self.opening
    }

    /// The changes that were noted, where these are all.
    pub fn changes(&self) -> Option<&[Change]>
        ensures { IfSome result (λ changes. LeadBack self.now changes.now) }
    {
        if self.whole {
            return None;
        }
        Some(self.changes.as_slice())
    }

    /// Steps a hart in place, and says whether that changed memory.
    #[inline(always)]
    pub fn step(&mut self, program: &[Instr], hart: &mut Hart) -> bool
        ensures hart { hart.new ≡ (hart_step program.now hart.old self.old.now).hart }
        ensures memory { self.new.now ≡ (hart_step program.now hart.old self.old.now).memory }
        ensures changed { is_changed self.old.now self.new.now ≡ result }
        ensures opening { self.new.opening ≡ self.old.opening }
    {
        let Some(change) = step_hart(program, hart, &mut self.ram) else {
            return false;
        };
        if note(&mut self.changes, change) {
            return true;
        }
        self.whole = true;
        true
    }

    /// Clears the tag of every capability whose base lies in the addresses from `lo` up to `hi`.
    pub fn sweep(&mut self, lo: u64, hi: u128)
        ensures memory { self.new.now ≡ swept_memory lo hi self.old.now }
        ensures opening { self.new.opening ≡ self.old.opening }
    {
        self.whole = true;
        self.ram.sweep(lo, hi);
    }

    /// Whether each of these harts that runs goes round.
    pub fn all_stay(&mut self, program: &[Instr], harts: &[Hart]) -> bool
        ensures value { result ≡ all_stay program.now self.old.now harts.now }
        ensures same { self.new ≡ self.old }
    {
        all_stay(program, harts, &mut self.ram)
    }

    /// Brings the memory back to what it was at first. Fails only when out of memory, and only
    /// after a sweep, or where changes could not be noted.
    pub fn bring_back(&mut self, alloc: Global) -> Result<(), AllocError>
        ensures now { OnOk result (self.new.now ≡ self.old.opening) }
        ensures opening { self.new.opening ≡ self.old.opening }
    {
        if !self.whole {
            undo(&mut self.changes, &mut self.ram);
            return Ok(());
        }
        self.ram = copied_ram(alloc, &self.opening)?;
        self.changes.clear();
        self.whole = false;
        Ok(())
    }
}
