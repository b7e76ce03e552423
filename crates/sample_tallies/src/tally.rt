//! What many runs gave.

ghost use Rattle.std.specs.Prelude.{◌≡◌, ◌<◌, ◌≤◌, ◌+◌, ℕ, List, Some, None};
ghost use Rattle.std.specs.Prelude.{length, map, IfOk, IfSome, OnOk, All, slice_get};
ghost use Rattle.cheri_model.specs.runs.Machine.{MachineState};
ghost use Rattle.state_store.specs.Stores.{state_of};
ghost use Rattle.sample_tallies.specs.Tables.{Entry};
ghost use Rattle.sample_tallies.specs.Tallies.{empty, add, of_run, cut_by, hung_by};
ghost use Rattle.sample_tallies.specs.Sums.{traps_in_order, ends_in_order};
ghost use Rattle.sample_tallies.specs.Counts.{entry_of};

use crate::ends::Ends;
use crate::order::{sorted_ends, sorted_traps};
use crate::seen::{Seen, TrapSeen, either};
use crate::traps::Traps;
use cheri_model::MAX_HARTS;
use hart::Hart;
use sample_runs::{Run, RunEnd, RunMemory};
use shown_states::Loaded;
use state_store::State;
use std::alloc::{AllocError, Global};
use std::marker::Model;

/// What many runs of one machine gave: how many they are, the length of the longest, which were cut
/// or hung, which traps their last states have, and in which states they ended. Of each of these,
/// how many runs gave it, and the number of the first.
#[derive(Drop)]
pub struct Tally {
    pub(crate) runs: u64,
    pub(crate) longest: u32,
    pub(crate) cut: Option<Seen>,
    pub(crate) hung: Option<Seen>,
    pub(crate) traps: Traps,
    pub(crate) ends: Ends,
}

impl Model for Tally {
    ghost use Rattle.sample_tallies.specs.Counts.{Counted};

    ghost Value = { Counted };

    ghost view = { λ t. record {
      harts = t.ends.harts;
      granules = t.ends.granules;
      opening = t.ends.opening;
      sum = record {
        runs = t.runs;
        longest = t.longest;
        cut = t.cut;
        hung = t.hung;
        traps = t.traps;
        ends = t.ends.table;
      };
    } };
}

/// What is seen where a run was cut.
fn cut_by(end: RunEnd, seen: Seen) -> Option<Seen>
    ensures { result ≡ cut_by end seen }
{
    match end {
        RunEnd::Ended => None,
        RunEnd::Hung => None,
        RunEnd::Cut => Some(seen),
    }
}

/// What is seen where a run hung.
fn hung_by(end: RunEnd, seen: Seen) -> Option<Seen>
    ensures { result ≡ hung_by end seen }
{
    match end {
        RunEnd::Ended => None,
        RunEnd::Hung => Some(seen),
        RunEnd::Cut => None,
    }
}

impl Tally {
    /// Of no run of a machine with so many harts and granules.
    pub fn new(alloc: Global, harts: usize, granules: usize) -> Tally
        requires { harts ≤ MAX_HARTS }
        ensures sum { result.sum ≡ empty }
        ensures harts { result.harts ≡ harts }
        ensures granules { result.granules ≡ granules }
        ensures opening { result.opening ≡ None }
    {
        Tally {
            runs: 0,
            longest: 0,
            cut: None,
            hung: None,
            traps: Traps::new(alloc),
            ends: Ends::new(alloc, harts, granules),
        }
    }

    /// How many runs there are.
    pub fn runs(&self) -> u64
        ensures { result ≡ self.now.sum.runs }
    {
        self.runs
    }

    /// How many operations the longest run took.
    pub fn longest(&self) -> u32
        ensures { result ≡ self.now.sum.longest }
    {
        self.longest
    }

    /// The runs that were cut.
    pub fn cut(&self) -> Option<Seen>
        ensures { result ≡ self.now.sum.cut }
    {
        self.cut
    }

    /// The runs that hung.
    pub fn hung(&self) -> Option<Seen>
        ensures { result ≡ self.now.sum.hung }
    {
        self.hung
    }

    /// The traps that runs left, by harts ascending, then by causes. Fails only when out of memory.
    pub fn traps(&self, alloc: Global) -> Result<Vec<TrapSeen>, AllocError>
        ensures { IfOk result (λ traps.
            map entry_of traps.items ≡ traps_in_order self.now.sum) }
    {
        sorted_traps(alloc, self.traps.all())
    }

    /// How many ends there are, each a state in which runs ended. They are numbered from 0 on.
    pub fn end_count(&self) -> usize
        ensures { result ≡ length self.now.sum.ends }
    {
        self.ends.len()
    }

    /// The state of an end.
    pub fn end_state(&self, number: u32) -> State<'_>
        requires { number < length self.now.sum.ends }
        ensures state { (end : Entry MachineState) →
            slice_get self.now.sum.ends number ≡ Some end →
            state_of result.store.now result.row.now ≡ Some end.key }
        ensures harts { length result.row.now ≡ self.now.harts + 1 }
        ensures granules { result.store.now.granules ≡ self.now.granules }
    {
        self.ends.state(number)
    }

    /// The runs that ended so.
    pub fn end_seen(&self, number: u32) -> Seen
        requires { number < length self.now.sum.ends }
        ensures { (end : Entry MachineState) → slice_get self.now.sum.ends number ≡ Some end →
            result ≡ end.seen }
    {
        self.ends.seen(number)
    }

    /// The numbers of the ends in the order of their first runs. Fails only when out of memory.
    pub fn order(&self, alloc: Global) -> Result<Vec<u32>, AllocError>
        ensures sorted { IfOk result (λ order. map (slice_get self.now.sum.ends) order.items
            ≡ map (λ end. Some end) (ends_in_order self.now.sum)) }
        ensures within { IfOk result (λ order.
            All (λ number. number < length self.now.sum.ends) order.items) }
    {
        sorted_ends(alloc, &self.ends)
    }

    /// Adds a run that came to this state. The memories of all runs that are added so opened as
    /// one. Fails only when out of memory or of numbers, or where a count reaches 2^64. What a
    /// tally says after an `Err` is not known.
    pub fn note(
        &mut self,
        alloc: Global,
        number: u64,
        run: Run,
        harts: &[Hart],
        memory: &RunMemory,
    ) -> Result<(), AllocError>
        requires harts { length harts.now ≡ self.old.harts }
        requires granules { length memory.now.now ≡ self.old.granules }
        requires opening { IfSome self.old.opening (λ o. o ≡ memory.now.opening) }
        ensures sum { OnOk result (self.new.sum ≡ add self.old.sum
            (of_run number run.end run.length
            (record { harts = harts.now; memory = memory.now.now }))) }
        ensures same_harts { self.new.harts ≡ self.old.harts }
        ensures same_granules { self.new.granules ≡ self.old.granules }
        ensures opening { IfSome self.new.opening (λ o. o ≡ memory.now.opening) }
    {
        let seen = Seen::once(number);
        let Some(runs) = self.runs.checked_add(1) else {
            return Err(AllocError);
        };
        self.runs = runs;
        self.longest = self.longest.max(run.length);
        self.cut = either(self.cut, cut_by(run.end, seen))?;
        self.hung = either(self.hung, hung_by(run.end, seen))?;
        self.traps.see_harts(harts, seen)?;
        self.ends.see_run(alloc, run.end, harts, memory, seen)?;
        Ok(())
    }

    /// Adds the runs of another tally of this machine, whose ends are loaded into a state of it.
    /// Fails as `note` does.
    pub fn add(
        &mut self,
        alloc: Global,
        other: &Tally,
        blank: &mut Loaded,
    ) -> Result<(), AllocError>
        requires harts { other.now.harts ≡ self.old.harts }
        requires granules { other.now.granules ≡ self.old.granules }
        requires blank_harts { length blank.old.harts ≡ self.old.harts }
        requires blank_granules { length blank.old.memory ≡ self.old.granules }
        ensures sum { OnOk result (self.new.sum ≡ add self.old.sum other.now.sum) }
        ensures same_harts { self.new.harts ≡ self.old.harts }
        ensures same_granules { self.new.granules ≡ self.old.granules }
        ensures same_opening { self.new.opening ≡ self.old.opening }
        ensures blank_harts { length blank.new.harts ≡ self.old.harts }
        ensures blank_granules { length blank.new.memory ≡ self.old.granules }
    {
        let Some(runs) = self.runs.checked_add(other.runs) else {
            return Err(AllocError);
        };
        self.runs = runs;
        self.longest = self.longest.max(other.longest);
        self.cut = either(self.cut, other.cut)?;
        self.hung = either(self.hung, other.hung)?;
        self.traps.see_all(&other.traps)?;
        self.ends.see_all(alloc, &other.ends, blank)?;
        Ok(())
    }
}
