//! The table of origins that a run keeps.
#![tactic(auto, unfolding(crate::proofs::Unfold::table))]

ghost use Rattle.std.specs.Prelude.{◌≡◌, ◌+◌, ◌*◌, ◌^◌, ◌<◌, IfOk};
ghost use Rattle.origins.specs.Table.{
  slot_of,
  place_at,
  origin_in,
  with_origin,
  list_of,
  IsPlace,
  AreFlows,
  IsOpening,
  IsAfter,
};

use crate::place::Place;
use crate::step_flows::StepFlows;
use std::alloc::{AllocError, Global};
use std::marker::Model;

/// The slots of a hart: its PCC and its 32 registers.
const HART_SLOTS: usize = 33;

/// For each place of a machine the place of its opening state that the value there came from.
#[derive(Debug, Drop)]
pub struct OriginTable {
    harts: u8,
    slots: Vec<Place>,
}

impl Model for OriginTable {
    ghost use Rattle.std.specs.Prelude.{◌*◌, ◌≤◌, length};
    ghost use Rattle.origins.specs.Table.{Table};

    ghost Value = { Table };

    ghost view = { λ t. record { harts = t.harts; slots = t.slots.items } };

    ghost invariant = { λ t. 33 * t.harts ≤ length t.slots.items };
}

/// Where the origin of a place is.
fn slot(harts: u8, place: Place) -> usize
    ensures { result ≡ slot_of harts place }
{
    match place {
        Place::PccOf(hart) => HART_SLOTS * usize::from(hart),
        Place::RegisterOf { hart, number } => {
            HART_SLOTS * usize::from(hart) + 1 + usize::from(number)
        }
        Place::GranuleOf(number) => HART_SLOTS * usize::from(harts) + number as usize,
    }
}

/// The place whose origin is in a slot.
fn place_at(harts: u8, slot: usize) -> Place
    requires { slot < 33 * harts + 2 ^ 32 }
    ensures { result ≡ place_at harts slot }
{
    let of_harts = HART_SLOTS * usize::from(harts);
    if slot >= of_harts {
        return Place::GranuleOf((slot - of_harts) as u32);
    }
    let hart = (slot / HART_SLOTS) as u8;
    if slot % HART_SLOTS == 0 {
        return Place::PccOf(hart);
    }
    Place::RegisterOf {
        hart,
        number: (slot % HART_SLOTS - 1) as u8,
    }
}

impl OriginTable {
    /// A table of so many harts and granules of memory, in which each place is its own origin.
    /// Fails only when out of memory.
    pub fn open(alloc: Global, harts: u8, granules: u32) -> Result<OriginTable, AllocError>
        ensures { IfOk result (λ table. IsOpening harts granules table) }
    {
        let count = HART_SLOTS * usize::from(harts) + granules as usize;
        let mut slots = Vec::with_capacity(alloc, count)?;
        for slot in 0..count {
            slots.push(place_at(harts, slot))?;
        }
        Ok(OriginTable { harts, slots })
    }

    /// The origin of what is in a place.
    pub fn origin(&self, place: Place) -> Place
        requires { IsPlace self.now place }
        ensures { result ≡ origin_in self.now place }
    {
        self.slots[slot(self.harts, place)]
    }

    /// Puts the origin of what is in a place.
    fn set(&mut self, place: Place, origin: Place)
        requires { IsPlace self.old place }
        ensures { self.new ≡ with_origin self.old place origin }
    {
        let at = slot(self.harts, place);
        self.slots[at] = origin;
    }

    /// The origins after flows of the hart with this number.
    pub fn follow(&mut self, hart: u8, flows: StepFlows)
        requires { AreFlows self.old hart (list_of flows) }
        ensures { IsAfter hart (list_of flows) self.old self.new }
    {
        let _ = &self.harts;
        match flows {
            StepFlows::Nothing => {}
            StepFlows::One(flow) => {
                let origin = self.origin(flow.source.of(hart));
                self.set(flow.set.of(hart), origin);
            }
            StepFlows::Two(first, second) => {
                let first_origin = self.origin(first.source.of(hart));
                let second_origin = self.origin(second.source.of(hart));
                self.set(second.set.of(hart), second_origin);
                self.set(first.set.of(hart), first_origin);
            }
        }
    }
}
