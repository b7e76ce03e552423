//! The size of RAM.
#![tactic(auto, unfolding(crate::proofs::Unfold::ram))]

ghost use Rattle.std.specs.Prelude.{◌≡◌};
ghost use Rattle.asm_starts.specs.Ram.{asked_ram, default_ram, taken};

use asm_layout::memory_size;
use cheri_model::{GRANULE_BYTES, MAX_RAM_BYTES, RAM_BASE};

/// How many bytes of RAM are taken, up to an address.
pub fn taken(memory_end: u64) -> u64
    ensures { result ≡ taken memory_end }
{
    memory_end.wrapping_sub(RAM_BASE)
}

/// The size of RAM that is taken up to an address, where no request says it. `None` where that is
/// more than RAM can have.
pub fn default_ram(memory_end: u64) -> Option<u32>
    ensures { result ≡ default_ram memory_end }
{
    let size = memory_size(taken(memory_end));
    if size > u64::from(MAX_RAM_BYTES) {
        return None;
    }
    Some(size as u32)
}

/// The size of RAM that a request says, `None` at or above 2^128. `None` where RAM can't have this
/// size, or it doesn't hold what is taken up to an address.
pub fn asked_ram(size: Option<u128>, memory_end: u64) -> Option<u32>
    ensures { result ≡ asked_ram size memory_end }
{
    let size = size?;
    if size < u128::from(GRANULE_BYTES) || size > u128::from(MAX_RAM_BYTES) {
        return None;
    }
    if size % u128::from(GRANULE_BYTES) != 0 || size < u128::from(taken(memory_end)) {
        return None;
    }
    Some(size as u32)
}
