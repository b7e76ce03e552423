//! Sets of registers.
#![tactic(auto, unfolding(crate::specs::RegisterSets::lacks_any))]

ghost use Rattle.std.specs.Prelude.{◌≡◌, ℕ, ◌||◌, replicate, slice_set, true, false};
ghost use Rattle.live_registers.specs.RegisterSets.{IsWithinBut, forgotten, has, lacks_any};

use cap_ops::Cap;
use cheri_model::Reg;
use hart::Hart;
use std::marker::Model;

/// How many registers there are.
const COUNT: u8 = 32;

/// A set of registers. c0, which is always null, is in each.
#[derive(Clone, Copy)]
pub struct RegisterSet {
    members: [bool; 32],
}

impl Model for RegisterSet {
    ghost use Rattle.std.specs.Prelude.{◌≡◌, Bool, List, length};

    ghost Value = { List Bool };

    ghost view = { λ s. s.members };

    ghost invariant = { λ s. length s.members ≡ 32 };

    ghost inverse = { λ members. record { members = members } };
}

impl RegisterSet {
    /// The set of no register.
    pub fn none() -> RegisterSet
        ensures { result ≡ replicate 32 false }
    {
        RegisterSet {
            members: [false; 32],
        }
    }

    /// The set of all registers.
    pub(crate) fn all() -> RegisterSet
        ensures { (reg : ℕ) → has result reg ≡ true }
    {
        RegisterSet {
            members: [true; 32],
        }
    }

    /// Whether a register is in the set.
    pub fn has(&self, reg: Reg) -> bool
        ensures { result ≡ has self.now reg }
    {
        let number = reg.number();
        number == 0 || self.members[usize::from(number)]
    }

    /// Whether some register is not in the set, other than c0.
    pub(crate) fn lacks_any(&self) -> bool
        ensures { result ≡ lacks_any self.now }
    {
        let mut members = self.members;
        members[0] = true;
        members.iter().any(|member| !*member)
    }

    /// The set with this register.
    pub fn with(self, reg: Reg) -> RegisterSet
        ensures { result ≡ slice_set self reg true }
    {
        let mut members = self.members;
        members[usize::from(reg.number())] = true;
        RegisterSet { members }
    }

    /// The set without this register.
    pub(crate) fn without(self, reg: Reg) -> RegisterSet
        ensures { result ≡ slice_set self reg false }
    {
        let mut members = self.members;
        members[usize::from(reg.number())] = false;
        RegisterSet { members }
    }

    /// The registers of both sets.
    pub(crate) fn union(&self, other: &RegisterSet) -> RegisterSet
        ensures { (reg : ℕ) → has result reg ≡ (has self.now reg || has other.now reg) }
    {
        let mut members = self.members;
        for number in 0..32 {
            if other.members[number] {
                members[number] = true;
            }
        }
        RegisterSet { members }
    }

    /// Whether each register of this set but one is in another.
    pub(crate) fn is_within_but(&self, reg: Reg, other: &RegisterSet) -> bool
        ensures { result ≡ true → IsWithinBut self.now reg other.now }
    {
        let but = usize::from(reg.number());
        for number in 1..32 {
            if number == but || !self.members[number] {
                continue;
            }
            if !other.members[number] {
                return false;
            }
        }
        true
    }

    /// Sets each register of a hart that isn't in the set to null.
    pub(crate) fn forget(&self, hart: &mut Hart)
        ensures { hart.new ≡ forgotten self.now hart.old }
    {
        // Its clauses say that a hart has as many registers.
        let _pcc = hart.pcc();
        for number in 0..COUNT {
            let reg = Reg::new(number);
            if !self.has(reg) {
                hart.put(reg, Cap::null());
            }
        }
    }
}
