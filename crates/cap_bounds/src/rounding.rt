//! Rounding of a requested range to bounds that a capability can have (CHERI Concentrate, "encoding
//! of bounds"; CHERI ISA v9, CSetBounds).
#![tactic(auto, using(crate::proofs::RoundedParts::roundings))]

ghost use Rattle.std.specs.Prelude.{◌≡◌, ◌+◌, ◌-◌, ◌^◌, ◌<◌, ◌≤◌, ◌↔◌, IsTrue};
ghost use Rattle.cap_model.specs.bounds.Numbers.{round_down, round_up};
ghost use Rattle.cap_model.specs.bounds.Lengths.{exponent, internal_exponent};
ghost use Rattle.cap_model.specs.bounds.Rounding.{rounding_exponent, rounded_base, rounded_top};
ghost use Rattle.cap_model.specs.values.Capability.{b_field, t_field};

/// The rounding of a requested range: the fields that encode its bounds in a capability's word, the
/// bounds, and whether they are the requested ones. The top has up to 66 bits where the requested
/// range ends past the address space.
#[derive(Clone, Copy, Debug, PartialEq, Eq)]
pub struct Rounded {
    /// The internal exponent bit: 1 where the length is 2^12 or more.
    pub ie: u8,
    /// The exponent, 0 to 52.
    pub e: u8,
    /// The field B, of 14 bits.
    pub b: u16,
    /// The field T, of 12 bits.
    pub t: u16,
    /// The lowest address of the bounds.
    pub base: u64,
    /// The first address above the bounds.
    pub top: u128,
    /// Whether the bounds are the requested range.
    pub exact: bool,
}

/// A range whose ends are multiples of 2^(e+3).
#[derive(Clone, Copy)]
struct Widened {
    e: u8,
    base: u64,
    top: u128,
}

/// The exponent of a length: the number of binary digits from bit 13 on.
fn exponent_of(len: u128) -> u8
    requires { len ≤ 2 ^ 64 }
    ensures value { result ≡ exponent len }
    ensures at_most { result ≤ 52 }
{
    (64 - ((len >> 13) as u64).leading_zeros()) as u8
}

/// The requested range, its ends moved out to multiples of 2^(e+3).
fn widen(base: u64, len: u128, e: u8) -> Widened
    requires length { len ≤ 2 ^ 64 }
    requires exponent { e ≤ 53 }
    ensures e { result.e ≡ e }
    ensures base { result.base ≡ round_down (2 ^ (e + 3)) base }
    ensures top { result.top ≡ round_up (2 ^ (e + 3)) (base + len) }
{
    let mask: u64 = (1 << (e + 3)) - 1;
    let end = u128::from(base) + len;
    Widened {
        e,
        base: base & !mask,
        top: (end + u128::from(mask)) & !u128::from(mask),
    }
}

/// The requested range, its ends moved out at the exponent of its rounding.
fn round_long(base: u64, len: u128) -> Widened
    requires long { 2 ^ 12 ≤ len }
    requires length { len ≤ 2 ^ 64 }
    ensures e { result.e ≡ rounding_exponent base len }
    ensures base { result.base ≡ rounded_base base len }
    ensures top { result.top ≡ rounded_top base len }
{
    let tight = widen(base, len, exponent_of(len));
    if tight.top - u128::from(tight.base) < 1 << (tight.e + 13) {
        tight
    } else {
        widen(base, len, tight.e + 1)
    }
}

/// A range that is shorter than 2^12: it needs no rounding.
fn short_bounds(base: u64, len: u128) -> Rounded
    requires { len < 2 ^ 12 }
    ensures ie { result.ie ≡ internal_exponent len }
    ensures e { result.e ≡ rounding_exponent base len }
    ensures b { result.b ≡ b_field (internal_exponent len) (rounding_exponent base len)
        (rounded_base base len) }
    ensures t { result.t ≡ t_field (internal_exponent len) (rounding_exponent base len)
        (rounded_top base len) }
    ensures base { result.base ≡ rounded_base base len }
    ensures top { result.top ≡ rounded_top base len }
    ensures exact { IsTrue result.exact ↔ ((result.base ≡ base) × (result.top ≡ base + len)) }
{
    let top = u128::from(base) + len;
    Rounded {
        ie: 0,
        e: 0,
        b: (base & 0x3fff) as u16,
        t: (top & 0xfff) as u16,
        base,
        top,
        exact: true,
    }
}

/// A range of 2^12 or more, rounded at its exponent, of which B and T hold the two halves.
fn long_bounds(base: u64, len: u128) -> Rounded
    requires long { 2 ^ 12 ≤ len }
    requires length { len ≤ 2 ^ 64 }
    ensures ie { result.ie ≡ internal_exponent len }
    ensures e { result.e ≡ rounding_exponent base len }
    ensures b { result.b ≡ b_field (internal_exponent len) (rounding_exponent base len)
        (rounded_base base len) }
    ensures t { result.t ≡ t_field (internal_exponent len) (rounding_exponent base len)
        (rounded_top base len) }
    ensures base { result.base ≡ rounded_base base len }
    ensures top { result.top ≡ rounded_top base len }
    ensures exact { IsTrue result.exact ↔ ((result.base ≡ base) × (result.top ≡ base + len)) }
{
    let rounded = round_long(base, len);
    let e = rounded.e;
    Rounded {
        ie: 1,
        e,
        b: ((rounded.base >> e) & 0x3fff) as u16 + u16::from(e % 8),
        t: ((rounded.top >> e) & 0xfff) as u16 + u16::from(e / 8),
        base: rounded.base,
        top: rounded.top,
        exact: rounded.top - u128::from(rounded.base) == len,
    }
}

/// The rounding of the range of `len` addresses from `base` on: the least bounds that hold it, at
/// the least exponent that can encode them, and their fields. Where the range ends past the address
/// space the same rules apply to whole numbers.
pub fn set_bounds(base: u64, len: u128) -> Rounded
    requires { len ≤ 2 ^ 64 }
    ensures ie { result.ie ≡ internal_exponent len }
    ensures e { result.e ≡ rounding_exponent base len }
    ensures b { result.b ≡ b_field (internal_exponent len) (rounding_exponent base len)
        (rounded_base base len) }
    ensures t { result.t ≡ t_field (internal_exponent len) (rounding_exponent base len)
        (rounded_top base len) }
    ensures base { result.base ≡ rounded_base base len }
    ensures top { result.top ≡ rounded_top base len }

    // The fields have their widths, so that they don't reach into one another in a word.
    ensures e_at_most { result.e ≤ 52 }
    ensures b_below { result.b < 2 ^ 14 }
    ensures t_below { result.t < 2 ^ 12 }

    // The rounding holds the requested range, and is exact where it is that range.
    ensures holds { (result.base ≤ base) × (base + len ≤ result.top) }
    ensures exact { IsTrue result.exact ↔ ((result.base ≡ base) × (result.top ≡ base + len)) }
{
    // From 2^12 on the fields have room for the leading digits alone.
    if len < 1 << 12 {
        short_bounds(base, len)
    } else {
        long_bounds(base, len)
    }
}
