//! The bounds of every 128-bit word (CHERI Concentrate, "decoding of bounds"; CHERI ISA v9,
//! "capability encoding").
//!
//! All is counted in steps of 2^E: where the address's region begins, and how far into it each
//! bound lies. The one shift by E comes last, so that no size of a region is computed and no shift
//! is too far.
#![tactic(auto, using(crate::proofs::Regions::places), unfolding(crate::proofs::Unfold::regions))]

ghost use Rattle.std.specs.Prelude.{◌≡◌, ◌+◌, ◌-◌, ◌*◌, ◌%◌, ◌^◌, ◌≤◌, ◌<◌};
ghost use Rattle.cap_model.specs.words.Fields.{word_exponent, word_b};
ghost use Rattle.cap_model.specs.words.RawBounds.{
  region_floor,
  region_start,
  raw_base,
  raw_top,
  corrected_top,
};

use crate::word::{b_digits, exponent_field, full_t_digits};

/// The length of a region in steps of 2^E.
const REGION_STEPS: u64 = 1 << 14;

/// From this exponent on, the top's bit 64 stays as it is.
const FIRST_UNCORRECTED_EXPONENT: u8 = 51;

/// The base and the top of the word with this upper half and this address, tagged or not.
///
/// The base is below 2^64 and the top below 2^65. The top of a word that no instruction makes may
/// lie below its base.
pub fn decode(upper: u64, addr: u64) -> (u64, u128)
    ensures base { result.0 ≡ raw_base upper addr }
    ensures top { result.1 ≡ raw_top upper addr }
{
    let e = exponent_field(upper);
    let b = b_digits(upper);
    let start = region_steps(e, b, addr);
    let base = address_of_steps(e, start + offset_steps(b, b));
    let top = top_of_steps(e, start + offset_steps(b, full_t_digits(upper)));
    (base, with_top_bit(e, base, top))
}

/// The base of the word alone, which takes a fraction of the time of `decode`.
pub fn decode_base(upper: u64, addr: u64) -> u64
    ensures { result ≡ raw_base upper addr }
{
    let e = exponent_field(upper);
    let b = b_digits(upper);
    address_of_steps(e, region_steps(e, b, addr) + offset_steps(b, b))
}

/// Where the region of the address begins, modulo 2^64.
pub(crate) fn region_origin(upper: u64, addr: u64) -> u64
    ensures { result ≡ region_start (word_exponent upper) (word_b upper) addr % 2 ^ 64 }
{
    let e = exponent_field(upper);
    address_of_steps(e, region_steps(e, b_digits(upper), addr))
}

/// Where regions begin, modulo their size, in steps of 2^E: one step of the top three bits of B
/// below them.
fn floor_steps(b: u16) -> u64
    requires { b < 2 ^ 14 }
    ensures value { result ≡ region_floor b }
    ensures below { result < 2 ^ 14 }
{
    u64::from(((b >> 11) + 7) % 8) << 11
}

/// Where the region of the address begins, in steps of 2^E. It is counted from 2^66 steps below 0,
/// as it may lie below 0; the model counts it from 2^66 below 0. Either is 0 modulo 2^65.
fn region_steps(e: u8, b: u16, addr: u64) -> u128
    requires exponent { e ≤ 52 }
    requires digits { b < 2 ^ 14 }
    ensures value { result * 2 ^ e + 2 ^ 66 ≡ region_start e b addr + 2 ^ 66 * 2 ^ e }
    ensures below { result < 2 ^ 67 }
{
    let place = addr >> e;
    let beyond = (place % REGION_STEPS + REGION_STEPS - floor_steps(b)) % REGION_STEPS;
    (1 << 66) + u128::from(place) - u128::from(beyond)
}

/// How far into its region the bound with these fourteen digits lies, in steps of 2^E.
fn offset_steps(b: u16, digits: u16) -> u128
    requires b_below { b < 2 ^ 14 }
    requires digits_below { digits < 2 ^ 14 }
    ensures value { result ≡ (digits + 2 ^ 14 - region_floor b) % 2 ^ 14 }
    ensures below { result < 2 ^ 14 }
{
    u128::from((u64::from(digits) + REGION_STEPS - floor_steps(b)) % REGION_STEPS)
}

/// The address that lies this many steps up, going round at 2^64.
fn address_of_steps(e: u8, steps: u128) -> u64
    requires exponent { e ≤ 52 }
    requires fit { steps < 2 ^ 68 }
    ensures { result ≡ steps * 2 ^ e % 2 ^ 64 }
{
    ((steps << e) % (1 << 64)) as u64
}

/// The top that lies this many steps up, going round at 2^65. Its bit 64 may still be wrong.
fn top_of_steps(e: u8, steps: u128) -> u128
    requires exponent { e ≤ 52 }
    requires fit { steps < 2 ^ 68 }
    ensures value { result ≡ steps * 2 ^ e % 2 ^ 65 }
    ensures below { result < 2 ^ 65 }
{
    (steps << e) % (1 << 65)
}

/// The top with its bit 64 inverted where base and top would else lie too far apart.
fn with_top_bit(e: u8, base: u64, top: u128) -> u128
    requires { top < 2 ^ 65 }
    ensures { result ≡ corrected_top e base top }
{
    if e >= FIRST_UNCORRECTED_EXPONENT {
        return top;
    }
    let halves_above = ((top >> 63) + 4 - u128::from(base >> 63)) % 4;
    if halves_above > 1 {
        top ^ (1 << 64)
    } else {
        top
    }
}
