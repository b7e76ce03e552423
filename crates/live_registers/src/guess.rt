//! A guess which registers matter, that is checked.

ghost use Rattle.std.specs.Prelude.{◌≡◌, ◌≤◌, IfOk, length};
ghost use Rattle.live_registers.specs.LiveSets.{IsRight};

use crate::live::LiveRegisters;
use crate::operands::{reads, way_of, writes};
use crate::register_set::RegisterSet;
use crate::scan::is_unneeded;
use cheri_model::form::Form;
use cheri_model::{Instr, MAX_INSTRUCTIONS, Reg};
use std::alloc::{AllocError, Global};

/// How often the sets of a program are gone through, at most. Straight code needs one round, and
/// each loop about one more.
const MAX_ROUNDS: u32 = 100;

impl LiveRegisters {
    /// The registers that matter in a program, where a question looks at these. All do where the
    /// program has too many instructions or winds too much. Fails only when out of memory.
    pub fn guess(
        alloc: Global,
        program: &[Instr],
        asked: RegisterSet,
    ) -> Result<LiveRegisters, AllocError>
        ensures right { IfOk result (λ live. IsRight program.now live) }
        ensures asked { IfOk result (λ live. live.asked ≡ asked) }
    {
        let mut live = LiveRegisters {
            asked,
            sets: vec![in alloc; asked; program.len()]?,
        };
        if program.len() <= MAX_INSTRUCTIONS {
            live.settle(program);
        }
        if live.is_right(program) {
            return Ok(live);
        }
        Ok(LiveRegisters {
            asked,
            sets: vec![in alloc; RegisterSet::all(); program.len()]?,
        })
    }

    /// Lets the sets grow until no instruction needs more, or for the most rounds.
    fn settle(&mut self, program: &[Instr])
        requires { length program.now ≤ MAX_INSTRUCTIONS }
        ensures { self.new.asked ≡ self.old.asked }
    {
        for _ in 0..MAX_ROUNDS {
            if !self.grow(program) {
                return;
            }
        }
    }

    /// Goes through the instructions once, the last one first, and says whether a set grew.
    fn grow(&mut self, program: &[Instr]) -> bool
        requires { length program.now ≤ MAX_INSTRUCTIONS }
        ensures { self.new.asked ≡ self.old.asked }
    {
        let anywhere = self.anywhere();
        let mut grew = false;
        for number in (0..program.len()).rev() {
            let needed = self.needed(&anywhere, number as u32, &program[number].form());
            if self.add(number, &needed) {
                grew = true;
            }
        }
        grew
    }

    /// The registers that have to matter before an instruction for what matters behind it now.
    fn needed(&self, anywhere: &RegisterSet, number: u32, form: &Form) -> RegisterSet {
        let behind = self.behind(anywhere, number, way_of(form));
        let needed = behind.without(writes(form));
        if is_unneeded(&behind, form) {
            return needed;
        }
        let (one, two) = reads(form);
        needed.with(one).with(two)
    }

    /// Adds registers to the set of an instruction, and says whether one is new there.
    fn add(&mut self, number: usize, needed: &RegisterSet) -> bool
        ensures { self.new.asked ≡ self.old.asked }
    {
        let Some(set) = self.sets.get_mut(number) else {
            return false;
        };
        if needed.is_within_but(Reg::new(0), set) {
            return false;
        }
        *set = set.union(needed);
        true
    }
}
