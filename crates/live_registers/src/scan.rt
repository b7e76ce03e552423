//! The scan that says whether the sets of a program are right, instruction by instruction.

ghost use Rattle.std.specs.Prelude.{◌≡◌, ℕ, ◌⊎◌, All, false, slice_index_or, true};
ghost use Rattle.live_registers.specs.LiveSets.{IsRight, IsRightBefore, set_at};
ghost use Rattle.live_registers.specs.Operands.{may_lead_to, only_computes, reads, way_of, writes};
ghost use Rattle.live_registers.specs.RegisterSets.{IsWithin, has};

use crate::live::LiveRegisters;
use crate::operands::{Way, only_computes, reads, way_of, writes};
use crate::register_set::RegisterSet;
use cheri_model::form::Form;
use cheri_model::{Instr, MAX_INSTRUCTIONS, Reg};

/// Whether an instruction only computes a register that isn't among those that matter behind it.
pub(crate) fn is_unneeded(behind: &RegisterSet, form: &Form) -> bool
    ensures { result ≡ true → (only_computes form.now ≡ true)
        × ((writes form.now ≡ 0) ⊎ (has behind.now (writes form.now) ≡ false)) }
{
    if !only_computes(form) {
        return false;
    }
    let into = writes(form);
    if into.number() == 0 {
        return true;
    }
    !behind.has(into)
}

/// Whether a set has the registers that an instruction reads.
fn has_read(set: &RegisterSet, form: &Form) -> bool
    ensures { result ≡ true → (has set.now (reads form.now).0 ≡ true)
        × (has set.now (reads form.now).1 ≡ true) }
{
    let (one, two) = reads(form);
    if !set.has(one) {
        return false;
    }
    set.has(two)
}

impl LiveRegisters {
    /// The registers that matter before any instruction, and where there is none.
    pub(crate) fn anywhere(&self) -> RegisterSet
        ensures { (addr : ℕ) → IsWithin (set_at self.now addr) result }
    {
        let mut all = self.asked;
        for set in &self.sets {
            all = all.union(set);
        }
        all
    }

    /// The registers that matter behind an instruction with this number, where `anywhere` has those
    /// that matter at any address.
    pub(crate) fn behind(&self, anywhere: &RegisterSet, number: u32, way: Way) -> RegisterSet
        ensures { ((addr : ℕ) → IsWithin (set_at self.now addr) anywhere.now) → (addr : ℕ) →
            may_lead_to way number addr ≡ true → IsWithin (set_at self.now addr) result }
    {
        let next = u64::from(number) + 1;
        match way {
            Way::Next => self.set_before(next),
            Way::To(target) => self.set_before(u64::from(target)),
            Way::NextOr(target) => {
                self.set_before(next)
                    .union(&self.set_before(u64::from(target)))
            }
            Way::Anywhere => *anywhere,
            Way::Nowhere => RegisterSet::none(),
        }
    }

    /// Whether the set before an instruction with this number is right.
    fn is_right_before(&self, anywhere: &RegisterSet, number: u32, form: &Form) -> bool
        ensures { ((addr : ℕ) → IsWithin (set_at self.now addr) anywhere.now) → result ≡ true →
            IsRightBefore self.now number form.now
            (slice_index_or self.now.sets number self.now.asked) }
    {
        let set = self.numbered(number as usize);
        let behind = self.behind(anywhere, number, way_of(form));
        if !behind.is_within_but(writes(form), &set) {
            return false;
        }
        if is_unneeded(&behind, form) {
            return true;
        }
        has_read(&set, form)
    }

    /// Whether each set has the registers that the question looks at.
    fn has_asked(&self) -> bool
        ensures { result ≡ true → All (IsWithin self.now.asked) self.now.sets }
    {
        for set in &self.sets {
            if !self.asked.is_within_but(Reg::new(0), set) {
                return false;
            }
        }
        true
    }

    /// Whether the sets are right for a program.
    pub(crate) fn is_right(&self, program: &[Instr]) -> bool
        ensures { result ≡ true → IsRight program.now self.now }
    {
        if program.len() > MAX_INSTRUCTIONS {
            return false;
        }
        if !self.has_asked() {
            return false;
        }
        let anywhere = self.anywhere();
        for (number, instr) in program.iter().enumerate() {
            if !self.is_right_before(&anywhere, number as u32, &instr.form()) {
                return false;
            }
        }
        true
    }
}
