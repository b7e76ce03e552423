//! Numbers in memory.
#![tactic(auto, unfolding(crate::proofs::Unfold::numbers))]

ghost use Rattle.std.specs.Prelude.{◌≡◌, take};
ghost use Rattle.asm_memory.specs.Numbers.{is_in_width, number_put};

use crate::memory::put_bytes;
use tagged_mem::Ram;

/// Whether a number of so many bytes can have a value of 64 bits, with a sign or without one. One
/// of 8 bytes has every value.
pub fn is_in_width(width: u8, value: u64) -> bool
    ensures { result ≡ is_in_width width value }
{
    if width >= 8 {
        return true;
    }
    let span = 1 << (8 * width);
    value.wrapping_add(span / 2) < span + span / 2
}

/// Puts the lowest bytes of a number into memory, so many, the least significant first.
pub fn put_number(ram: &mut Ram, addr: u64, width: u8, value: u64)
    ensures { ram.new ≡ number_put ram.old addr width value }
{
    let bytes = value.to_le_bytes();
    put_bytes(ram, addr, &bytes[..usize::from(width.min(8))]);
}
