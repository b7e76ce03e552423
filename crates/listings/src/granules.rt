//! RAM as the lines of a listing fill it.

ghost use Rattle.std.specs.Prelude.{
  ◌≡◌,
  ◌++◌,
  [],
  ◌∷◌,
  IfOk,
  OnOk,
  IsTrue,
  if◌then◌else◌,
  length,
};
ghost use Rattle.cheri_model.specs.steps.Memory.{ram_base, is_in_ram};
ghost use Rattle.cheri_model.specs.runs.ImageRules.{is_listed};
ghost use Rattle.listings.specs.Draft.{stored_bytes};
ghost use Rattle.listings.specs.Meaning.{listed_from};

use cheri_model::{GRANULE_BYTES, RAM_BASE, Value, Width};
use std::alloc::{AllocError, AllocFailed, Global};
use tagged_mem::Ram;

/// The bytes of a granule, as a step from address to address.
const GRANULE: u64 = GRANULE_BYTES as u64;

/// Stores bytes one after another, from an address on.
pub fn store_bytes(ram: &mut Ram, addr: u64, bytes: &[u8])
    requires { IsTrue (is_in_ram ram.old addr (length bytes.now)) }
    ensures { ram.new ≡ stored_bytes ram.old addr bytes.now }
{
    // The end of RAM is far below 2^64, so that no place of a byte wraps.
    let _size = ram.size();
    for (offset, byte) in bytes.iter().enumerate() {
        ram.store(addr + offset as u64, Width::Byte, u64::from(*byte));
    }
}

/// Appends a granule that is tagged or not all 0.
fn push_listed(
    granules: &mut Vec<(u64, Value)>,
    addr: u64,
    value: Value,
) -> Result<(), AllocFailed<(u64, Value)>>
    ensures { OnOk result (granules.new.items
        ≡ granules.old.items ++ (if is_listed value then (addr, value) ∷ [] else [])) }
{
    if value.tag() || value.bits() != 0 {
        granules.push((addr, value))?;
    }
    Ok(())
}

/// The granules that are tagged or not all 0, each with its address.
pub fn listed_granules(alloc: Global, ram: &Ram) -> Result<Vec<(u64, Value)>, AllocError>
    ensures { IfOk result (λ granules. granules.items ≡ listed_from ram_base ram.now) }
{
    let mut granules = Vec::new(alloc);
    for number in 0..ram.granule_count() {
        let addr = RAM_BASE + GRANULE * number as u64;
        push_listed(&mut granules, addr, ram.granule(number).value())?;
    }
    Ok(granules)
}
