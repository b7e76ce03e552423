//! The length and the alignment that a program asks for to get exact bounds (CHERI ISA v9,
//! CRoundRepresentableLength and CRepresentableAlignmentMask).
#![tactic(auto, using(crate::proofs::AtZero::at_zero), unfolding(crate::proofs::Unfold::length))]

ghost use Rattle.std.specs.Prelude.{◌≡◌};
ghost use Rattle.cap_model.specs.bounds.Alignment.{representable_length, alignment_mask};

use crate::rounding::set_bounds;

/// CRRL: the length rounded at base 0, modulo 2^64.
pub fn crrl(len: u64) -> u64
    ensures { result ≡ representable_length len }
{
    let rounded = set_bounds(0, u128::from(len));
    (rounded.top % (1 << 64)) as u64
}

/// CRAM: the mask that aligns a base for a length that `crrl` gives: 2^64 less the alignment of
/// that length.
pub fn cram(len: u64) -> u64
    ensures { result ≡ alignment_mask len }
{
    let rounded = set_bounds(0, u128::from(len));
    if rounded.ie == 0 {
        u64::MAX
    } else {
        u64::MAX << (rounded.e + 3)
    }
}
