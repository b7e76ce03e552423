//! Stacks: which sizes they have, where they may begin, and their capabilities.
#![tactic(auto, unfolding(crate::proofs::Unfold::stacks))]

ghost use Rattle.std.specs.Prelude.{◌≡◌};
ghost use Rattle.asm_capabilities.specs.Capabilities.{is_stack_size, stack_alignment, stack_at};

use crate::permissions::STACK;
use bitflags::Flags;
use cap_bounds::{cram, crrl};
use cap_model::Perms;
use cap_ops::{Cap, MakeFault};
use cheri_model::GRANULE_BYTES;

/// Whether a stack can have so many bytes: a multiple of 16 that is representable.
pub fn is_stack_size(size: u64) -> bool
    ensures { result ≡ is_stack_size size }
{
    size % u64::from(GRANULE_BYTES) == 0 && crrl(size) == size
}

/// What the base of a stack of so many bytes is a multiple of.
pub fn stack_alignment(size: u64) -> u64
    ensures { result ≡ stack_alignment size }
{
    cram(size).wrapping_neg().max(u64::from(GRANULE_BYTES))
}

/// The capability of a stack, at its end. Fails where there is none with just these bounds.
pub fn stack_capability(base: u64, size: u64) -> Result<Cap, MakeFault>
    ensures { result ≡ stack_at base size }
{
    let perms = Perms::from_bits_retain(STACK);
    Cap::make(base, u128::from(size), base.wrapping_add(size), perms)
}
