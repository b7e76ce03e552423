//! The rounding of requested ranges, and the lengths and alignments that need none.

ghost use Rattle.std.specs.Prelude.{◌≡◌};
ghost use Rattle.cap_model.specs.bounds.Alignment.{representable_length, alignment_mask};
ghost use Rattle.cheri_caps.specs.Structs.{rounding};

use crate::structs::CheriRounded;
use crate::values::halves;
use cap_bounds::{cram, crrl, set_bounds};

/// The least bounds that hold the range of `len` addresses from `base` on, the fields that encode
/// them, and whether they are the range. The top has up to 66 bits where the range ends past the
/// address space.
#[unsafe(no_mangle)]
pub extern "C" fn cheri_caps_round(base: u64, len: u64) -> CheriRounded
    ensures { result ≡ rounding base len }
{
    let rounded = set_bounds(base, u128::from(len));
    let (top, top_high) = halves(rounded.top);
    CheriRounded {
        base: rounded.base,
        top,
        top_high,
        b: rounded.b,
        t: rounded.t,
        ie: rounded.ie,
        e: rounded.e,
        exact: rounded.exact,
    }
}

/// The least length, from this one on, that aligned bounds can have (CRRL), modulo 2^64.
#[unsafe(no_mangle)]
pub extern "C" fn cheri_caps_representable_length(len: u64) -> u64
    ensures { result ≡ representable_length len }
{
    crrl(len)
}

/// The mask that aligns a base for that length (CRAM).
#[unsafe(no_mangle)]
pub extern "C" fn cheri_caps_alignment_mask(len: u64) -> u64
    ensures { result ≡ alignment_mask len }
{
    cram(len)
}
