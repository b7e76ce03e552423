//! Tallies of what is claimed: made elsewhere, and told by numbers.

ghost use Rattle.std.specs.Prelude.{◌≡◌, ◌≤◌, None, length, OnOk};
ghost use Rattle.sample_tallies.specs.Claims.{claimed, with_trap, with_end};
ghost use Rattle.sample_tallies.specs.Counts.{entry_of};

use crate::ends::Ends;
use crate::seen::{Seen, TrapSeen};
use crate::tally::Tally;
use crate::traps::Traps;
use cheri_model::MAX_HARTS;
use hart::Hart;
use std::alloc::{AllocError, Global};
use tagged_mem::Ram;

/// What is claimed of many runs, but for their traps and ends.
#[derive(Clone, Copy, Debug, PartialEq, Eq)]
pub struct Claims {
    /// How many they are.
    pub runs: u64,
    /// How many operations the longest took.
    pub longest: u32,
    /// Those that were cut.
    pub cut: Option<Seen>,
    /// Those that hung.
    pub hung: Option<Seen>,
}

impl Tally {
    /// What is claimed of runs of a machine with so many harts and granules, with no trap and no
    /// end yet. Allocates nothing.
    pub fn of_claims(alloc: Global, harts: usize, granules: usize, claims: Claims) -> Tally
        requires { harts ≤ MAX_HARTS }
        ensures sum { result.sum ≡ claimed claims }
        ensures harts { result.harts ≡ harts }
        ensures granules { result.granules ≡ granules }
        ensures opening { result.opening ≡ None }
    {
        Tally {
            runs: claims.runs,
            longest: claims.longest,
            cut: claims.cut,
            hung: claims.hung,
            traps: Traps::new(alloc),
            ends: Ends::new(alloc, harts, granules),
        }
    }

    /// Adds what is claimed of a trap. Fails only when out of memory, or where a count reaches
    /// 2^64.
    pub fn claim_trap(&mut self, trap: TrapSeen) -> Result<(), AllocError>
        ensures sum { OnOk result (self.new.sum ≡ with_trap self.old.sum (entry_of trap)) }
        ensures same_harts { self.new.harts ≡ self.old.harts }
        ensures same_granules { self.new.granules ≡ self.old.granules }
        ensures same_opening { self.new.opening ≡ self.old.opening }
    {
        self.traps.see(trap)
    }

    /// Adds what is claimed of the end in this state. Fails only when out of memory or of numbers,
    /// or where a count reaches 2^64.
    pub fn claim_end(
        &mut self,
        alloc: Global,
        harts: &[Hart],
        ram: &Ram,
        seen: Seen,
    ) -> Result<(), AllocError>
        requires harts { length harts.now ≡ self.old.harts }
        requires granules { length ram.now ≡ self.old.granules }
        ensures sum { OnOk result (self.new.sum ≡ with_end self.old.sum
            (record { key = record { harts = harts.now; memory = ram.now }; seen = seen })) }
        ensures same_harts { self.new.harts ≡ self.old.harts }
        ensures same_granules { self.new.granules ≡ self.old.granules }
        ensures same_opening { self.new.opening ≡ self.old.opening }
    {
        self.ends.see(alloc, harts, ram, seen)
    }
}
