//! The traps that runs left.

ghost use Rattle.std.specs.Prelude.{◌≡◌, ◌<◌, ℕ, [], length, map, IfSome};
ghost use Rattle.std.specs.Prelude.{OnOk, None, slice_get, Some, false, true};
ghost use Rattle.sample_tallies.specs.Tables.{with_entry, with_entries};
ghost use Rattle.sample_tallies.specs.SameStates.{same_place};
ghost use Rattle.sample_tallies.specs.Tallies.{trap_of, traps_from};
ghost use Rattle.sample_tallies.specs.Counts.{entry_of};

use crate::seen::{Seen, TrapPlace, TrapSeen};
use cheri_model::Status;
use hart::Hart;
use std::alloc::{AllocError, Global};
use std::marker::Model;

/// Traps, each once, in the order in which they came.
#[derive(Drop)]
pub struct Traps {
    traps: Vec<TrapSeen>,
}

impl Model for Traps {
    ghost use Rattle.std.specs.Prelude.{List, map};
    ghost use Rattle.sample_tallies.specs.declared.seen.TrapPlace.{TrapPlace};
    ghost use Rattle.sample_tallies.specs.Tables.{Entry};
    ghost use Rattle.sample_tallies.specs.Counts.{entry_of};

    ghost Value = { List (Entry TrapPlace) };

    ghost view = { λ t. map entry_of t.traps.items };
}

/// Whether two places are the same.
fn is_same(place: TrapPlace, other: TrapPlace) -> bool
    ensures { result ≡ same_place place other }
{
    place.hart == other.hart && place.cause == other.cause
}

/// Where the trap of a place stands, if it is there.
fn place_of(traps: &[TrapSeen], place: TrapPlace) -> Option<usize>
    ensures at { IfSome result (λ n. (trap : TrapSeen) →
        slice_get traps.now n ≡ Some trap → same_place trap.place place ≡ true) }
    ensures within { IfSome result (λ n. n < length traps.now) }
    ensures first { IfSome result (λ n. (i : ℕ) (trap : TrapSeen) → i < n →
        slice_get traps.now i ≡ Some trap → same_place trap.place place ≡ false) }
    ensures none { result ≡ None → (i : ℕ) (trap : TrapSeen) →
        slice_get traps.now i ≡ Some trap → same_place trap.place place ≡ false }
{
    for number in 0..traps.len() {
        if is_same(traps[number].place, place) {
            return Some(number);
        }
    }
    None
}

impl Traps {
    /// None. Allocates nothing.
    pub fn new(alloc: Global) -> Traps
        ensures { result ≡ [] }
    {
        Traps {
            traps: Vec::new(alloc),
        }
    }

    /// The traps, in the order in which they came.
    pub fn all(&self) -> &[TrapSeen]
        ensures { map entry_of result.now ≡ self.now }
    {
        self.traps.as_slice()
    }

    /// Adds what was seen of a trap. Fails only when out of memory, or where a count reaches 2^64,
    /// as the next calls.
    pub fn see(&mut self, trap: TrapSeen) -> Result<(), AllocError>
        ensures { OnOk result (self.new ≡ with_entry same_place self.old (entry_of trap)) }
    {
        match place_of(self.traps.as_slice(), trap.place) {
            None => self.traps.push(trap)?,
            Some(number) => {
                let seen = self.traps[number].seen.and(trap.seen)?;
                self.traps[number].seen = seen;
            }
        }
        Ok(())
    }

    /// Adds the trap of the hart with this number, if it has trapped.
    fn see_hart(&mut self, hart: usize, status: Status, seen: Seen) -> Result<(), AllocError>
        ensures { OnOk result (self.new
            ≡ with_entries same_place self.old (trap_of hart status seen)) }
    {
        match status {
            Status::Running => Ok(()),
            Status::Halted => Ok(()),
            Status::Trapped(trap) => {
                let place = TrapPlace {
                    hart,
                    cause: trap.cause,
                };
                self.see(TrapSeen { place, seen })
            }
        }
    }

    /// Adds the traps that these harts have after a run.
    pub fn see_harts(&mut self, harts: &[Hart], seen: Seen) -> Result<(), AllocError>
        ensures { OnOk result (self.new
            ≡ with_entries same_place self.old (traps_from 0 harts.now seen)) }
    {
        for number in 0..harts.len() {
            self.see_hart(number, harts[number].status(), seen)?;
        }
        Ok(())
    }

    /// Adds all traps of others.
    pub fn see_all(&mut self, others: &Traps) -> Result<(), AllocError>
        ensures { OnOk result (self.new ≡ with_entries same_place self.old others.now) }
    {
        let traps = others.traps.as_slice();
        for number in 0..traps.len() {
            self.see(traps[number])?;
        }
        Ok(())
    }
}
