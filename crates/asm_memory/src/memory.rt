//! Memory, as statements fill it.
#![tactic(auto, using(crate::proofs::Rulesets::lengths), unfolding(crate::proofs::Unfold::memory))]

ghost use Rattle.std.specs.Prelude.{
  ◌≡◌,
  ◌++◌,
  [],
  ◌∷◌,
  IfOk,
  OnOk,
  IsTrue,
  if◌then◌else◌,
  length,
};
ghost use Rattle.cheri_model.specs.steps.Memory.{is_in_ram};
ghost use Rattle.cheri_model.specs.runs.ImageRules.{is_listed};
ghost use Rattle.listings.specs.Draft.{stored_bytes};
ghost use Rattle.asm_memory.specs.Memory.{bytes_put, capability_put, fill_put, listed_below};

use cap_ops::Cap;
use cheri_model::{GRANULE_BYTES, RAM_BASE, Value, Width};
use std::alloc::{AllocError, AllocFailed, Global};
use tagged_mem::Ram;

/// The bytes of a granule, as a step from address to address.
const GRANULE: u64 = GRANULE_BYTES as u64;

/// Stores bytes one after another, from an address on.
fn store_bytes(ram: &mut Ram, addr: u64, bytes: &[u8])
    requires { IsTrue (is_in_ram ram.old addr (length bytes.now)) }
    ensures { ram.new ≡ stored_bytes ram.old addr bytes.now }
{
    // The end of RAM is far below 2^64, so that no place of a byte wraps.
    let _size = ram.size();
    for (offset, byte) in bytes.iter().enumerate() {
        ram.store(addr + offset as u64, Width::Byte, u64::from(*byte));
    }
}

/// Puts bytes into memory from an address on, unless they reach past its end: of a program that
/// takes more memory than there is, nothing else is told.
pub fn put_bytes(ram: &mut Ram, addr: u64, bytes: &[u8])
    ensures { ram.new ≡ bytes_put ram.old addr bytes.now }
{
    if ram.holds(addr, bytes.len() as u64) {
        store_bytes(ram, addr, bytes);
    }
}

/// Puts so many bytes that are the same into memory. Zeros are there already. Fails only when out
/// of memory.
pub fn put_fill(
    alloc: Global,
    ram: &mut Ram,
    addr: u64,
    count: u32,
    byte: u8,
) -> Result<(), AllocError>
    ensures { OnOk result (ram.new ≡ fill_put ram.old addr count byte) }
{
    if byte == 0 || !ram.holds(addr, u64::from(count)) {
        return Ok(());
    }
    let bytes = vec![in alloc; byte; count as usize]?;
    put_bytes(ram, addr, bytes.as_slice());
    Ok(())
}

/// Puts a value into the granule at an address, with its tag, unless it reaches past the end.
pub fn put_capability(ram: &mut Ram, addr: u64, value: Value)
    ensures { ram.new ≡ capability_put ram.old addr value }
{
    if ram.fits(addr, GRANULE) {
        ram.store_cap(addr, Cap::of_value(value));
    }
}

/// Appends a granule that is tagged or not all 0.
fn push_listed(
    granules: &mut Vec<(u64, Value)>,
    addr: u64,
    value: Value,
) -> Result<(), AllocFailed<(u64, Value)>>
    ensures { OnOk result (granules.new.items
        ≡ granules.old.items ++ (if is_listed value then (addr, value) ∷ [] else [])) }
{
    if value.tag() || value.bits() != 0 {
        granules.push((addr, value))?;
    }
    Ok(())
}

/// The granules of an image whose memory has so many bytes: those that are tagged or not all 0,
/// each with its address. Fails only when out of memory.
pub fn listed_granules(alloc: Global, ram: &Ram, size: u32) -> Result<Vec<(u64, Value)>, AllocError>
    ensures { IfOk result (λ granules. granules.items ≡ listed_below size ram.now) }
{
    let count = ram.granule_count().min((size / GRANULE_BYTES) as usize);
    let mut granules = Vec::new(alloc);
    for number in 0..count {
        let addr = RAM_BASE + GRANULE * number as u64;
        push_listed(&mut granules, addr, ram.granule(number).value())?;
    }
    Ok(granules)
}
