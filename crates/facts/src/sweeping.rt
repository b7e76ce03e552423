//! The places whose tag a sweep clears.
#![tactic(auto, unfolding(crate::proofs::Unfold::sweeping))]

ghost use Rattle.std.specs.Prelude.{
  ◌≡◌,
  ◌<◌,
  ◌≤◌,
  ◌++◌,
  ◌∷◌,
  [],
  if◌then◌else◌,
  IfOk,
  OnOk,
  length,
};
ghost use Rattle.cap_model.specs.results.Swept.{is_in_sweep};
ghost use Rattle.cheri_model.specs.steps.Hart.{register};
ghost use Rattle.cheri_model.specs.steps.Memory.{granule_at};
ghost use Rattle.facts.specs.EventFacts.{
  swept_among,
  swept_in_hart,
  swept_in_harts,
  swept_places,
};
ghost use Rattle.facts.specs.SweepLaw.{HasRegisters, HaveRegisters};

use cap_ops::Cap;
use cheri_model::{NoMemory, Reg};
use hart::{Hart, hart_in};
use origins::Place;
use std::alloc::Global;
use tagged_mem::Ram;

/// Adds a place where a sweep clears its tag. Fails only when out of memory.
fn add(places: &mut Vec<Place>, place: Place, value: Cap, lo: u64, hi: u128) -> Result<(), NoMemory>
    ensures { OnOk result (places.new.items
        ≡ places.old.items ++ (if is_in_sweep lo hi value then place ∷ [] else [])) }
{
    if !value.is_in_sweep(lo, hi) {
        return Ok(());
    }
    places.push(place)?;
    Ok(())
}

/// The same of each register of a hart.
fn add_registers(
    places: &mut Vec<Place>,
    number: u8,
    hart: &Hart,
    lo: u64,
    hi: u128,
) -> Result<(), NoMemory>
    ensures { OnOk result (places.new.items ≡ places.old.items
        ++ swept_among (λ k. Place.RegisterOf number k) (register hart.now) lo hi 32) }
{
    for k in 0..32u8 {
        let place = Place::RegisterOf {
            hart: number,
            number: k,
        };
        add(places, place, hart.register(Reg::new(k)), lo, hi)?;
    }
    Ok(())
}

/// The same of PCC and the registers, of which there are 32.
fn add_hart(
    places: &mut Vec<Place>,
    number: u8,
    hart: &Hart,
    lo: u64,
    hi: u128,
) -> Result<(), NoMemory>
    ensures places { OnOk result (places.new.items
        ≡ places.old.items ++ swept_in_hart lo hi number hart.now) }
    ensures registers { HasRegisters hart.now }
{
    add(places, Place::PccOf(number), hart.pcc(), lo, hi)?;
    add_registers(places, number, hart, lo, hi)
}

/// The same of all harts, of which there are at most 256.
fn add_harts(places: &mut Vec<Place>, harts: &[Hart], lo: u64, hi: u128) -> Result<(), NoMemory>
    requires { length harts.now ≤ 255 }
    ensures places { OnOk result (places.new.items
        ≡ places.old.items ++ swept_in_harts lo hi harts.now (length harts.now)) }
    ensures registers { OnOk result (HaveRegisters harts.now) }
{
    for i in 0..harts.len() {
        add_hart(places, i as u8, hart_in(harts, i), lo, hi)?;
    }
    Ok(())
}

/// The same of all granules.
fn add_granules(places: &mut Vec<Place>, ram: &Ram, lo: u64, hi: u128) -> Result<(), NoMemory>
    ensures { OnOk result (places.new.items ≡ places.old.items
        ++ swept_among Place.GranuleOf (granule_at ram.now) lo hi (length ram.now)) }
{
    for k in 0..ram.granule_count() {
        add(places, Place::GranuleOf(k as u32), ram.granule(k), lo, hi)?;
    }
    Ok(())
}

/// The places whose tag a sweep of the addresses from `lo` up to `hi` clears: the harts in order,
/// PCC first, then the granules. Fails only when out of memory. The harts have their registers,
/// which the law of sweeps asks.
pub fn swept_places(
    alloc: Global,
    harts: &[Hart],
    ram: &Ram,
    lo: u64,
    hi: u128,
) -> Result<Vec<Place>, NoMemory>
    requires { length harts.now ≤ 255 }
    ensures places { IfOk result (λ places. places.items
        ≡ swept_places lo hi (record { harts = harts.now; memory = ram.now })) }
    ensures registers { OnOk result (HaveRegisters harts.now) }
{
    let mut places = Vec::new(alloc);
    add_harts(&mut places, harts, lo, hi)?;
    add_granules(&mut places, ram, lo, hi)?;
    Ok(places)
}
