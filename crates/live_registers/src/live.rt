//! The registers that matter, for each instruction of a program.
#![tactic(auto, unfolding(crate::proofs::Unfold::live))]

ghost use Rattle.std.specs.Prelude.{◌≡◌, ◌^◌, ◌≤◌, slice_index_or};
ghost use Rattle.cheri_model.specs.steps.Actions.{address_of_target};
ghost use Rattle.live_registers.specs.LiveSets.{forgets_any, forgotten_hart, set_at, set_of};

use crate::register_set::RegisterSet;
use cheri_model::{CODE_BASE, INSTRUCTION_BYTES, Status};
use hart::Hart;
use std::marker::Model;

/// The registers that a question looks at in any hart, and of each instruction of a program those
/// that matter before it.
#[derive(Drop)]
pub struct LiveRegisters {
    pub(crate) asked: RegisterSet,
    pub(crate) sets: Vec<RegisterSet>,
}

impl Model for LiveRegisters {
    ghost use Rattle.live_registers.specs.LiveSets.{LiveSets};

    ghost Value = { LiveSets };

    ghost view = { λ l. record { asked = l.asked; sets = l.sets.items } };
}

impl LiveRegisters {
    /// Those that matter before the instruction with a number; what the question looks at where
    /// there is none.
    pub(crate) fn numbered(&self, number: usize) -> RegisterSet
        ensures { result ≡ slice_index_or self.now.sets number self.now.asked }
    {
        match self.sets.get(number) {
            Some(set) => *set,
            None => self.asked,
        }
    }

    /// Those that matter before the instruction at an address.
    pub(crate) fn set_at(&self, addr: u64) -> RegisterSet
        ensures { result ≡ set_at self.now addr }
    {
        if addr < CODE_BASE || addr % INSTRUCTION_BYTES != 0 {
            return self.asked;
        }
        self.numbered(((addr - CODE_BASE) / INSTRUCTION_BYTES) as usize)
    }

    /// Those that matter before the instruction with a number, by its address.
    pub(crate) fn set_before(&self, number: u64) -> RegisterSet
        requires { number ≤ 2 ^ 32 }
        ensures { result ≡ set_at self.now (address_of_target number) }
    {
        self.set_at(CODE_BASE + INSTRUCTION_BYTES * number)
    }

    /// Whether some register doesn't matter before some instruction. Where none does, nothing is
    /// ever forgotten.
    pub fn forgets_any(&self) -> bool
        ensures { result ≡ forgets_any self.now }
    {
        self.sets.iter().any(|set| set.lacks_any())
    }

    /// Those that matter to a hart.
    pub fn set_of(&self, hart: &Hart) -> RegisterSet
        ensures { result ≡ set_of self.now hart.now }
    {
        match hart.status() {
            Status::Running => {}
            Status::Halted | Status::Trapped(_) => return self.asked,
        }
        let pcc = hart.pcc();
        if !pcc.tag() {
            return self.asked;
        }
        self.set_at(pcc.addr())
    }

    /// Sets each register of a hart that doesn't matter to null.
    pub fn forget(&self, hart: &mut Hart)
        ensures { hart.new ≡ forgotten_hart self.now hart.old }
    {
        self.set_of(hart).forget(hart);
    }
}
