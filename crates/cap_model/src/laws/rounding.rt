//! Laws on the rounding of a requested range (CHERI Concentrate, "encoding of bounds"; CHERI ISA
//! v9, CSetBounds).
#![tactic(auto, using(crate::proofs::Rulesets::rounding))]

ghost use Rattle.std.specs.Prelude.{◌≡◌, ℕ, ◌+◌, ◌-◌, ◌%◌, ◌^◌, ◌<◌, ◌≤◌};
ghost use Rattle.cap_model.specs.bounds.Numbers.{round_down, round_up};
ghost use Rattle.cap_model.specs.bounds.Lengths.{exponent, internal_exponent, alignment};
ghost use Rattle.cap_model.specs.bounds.Rounding.{
  rounding_exponent,
  rounding_alignment,
  rounded_base,
  rounded_top,
};
ghost use Rattle.cap_model.specs.values.Capability.{b_field, t_field};
ghost use Rattle.cap_model.specs.bounds.Window.{IsInWindow};

/// A rounding holds the requested range.
pub fn rounding_holds_the_range()
    ensures base { (base len : ℕ) → rounded_base base len ≤ base }
    ensures top { (base len : ℕ) → base + len ≤ rounded_top base len }
{}

/// The search for the exponent of a rounding succeeds: the exponent is at most 52.
pub fn rounding_exists()
    ensures { (base len : ℕ) → len ≤ 2 ^ 64 → rounding_exponent base len ≤ 52 }
{}

/// The exponent of a rounding is that of the requested length, or one more: one more where the
/// range, made wider at the length's own exponent, is too long for it.
pub fn rounding_steps_up_once()
    ensures same { (base len : ℕ) → 2 ^ 12 ≤ len → len ≤ 2 ^ 64 →
        let g = 2 ^ (exponent len + 3) in
        round_up g (base + len) - round_down g base < 2 ^ (exponent len + 13) →
        rounding_exponent base len ≡ exponent len }
    ensures next { (base len : ℕ) → 2 ^ 12 ≤ len → len ≤ 2 ^ 64 →
        let g = 2 ^ (exponent len + 3) in
        2 ^ (exponent len + 13) ≤ round_up g (base + len) - round_down g base →
        rounding_exponent base len ≡ exponent len + 1 }
{}

/// Below 2^12 nothing is rounded.
pub fn short_ranges_are_exact()
    ensures base { (base len : ℕ) → len < 2 ^ 12 → rounded_base base len ≡ base }
    ensures top { (base len : ℕ) → len < 2 ^ 12 → rounded_top base len ≡ base + len }
{}

/// The rounded length has the exponent and the alignment that it was rounded with, and the
/// requested length's internal exponent bit. From 2^12 on it lies from 2^(E+12) to below 2^(E+13).
pub fn rounded_length_keeps_the_exponent()
    ensures exponent { (base len : ℕ) → len ≤ 2 ^ 64 →
        exponent (rounded_top base len - rounded_base base len) ≡ rounding_exponent base len }
    ensures internal_exponent { (base len : ℕ) →
        internal_exponent (rounded_top base len - rounded_base base len) ≡ internal_exponent len }
    ensures alignment { (base len : ℕ) → len ≤ 2 ^ 64 →
        alignment (rounded_top base len - rounded_base base len) ≡ rounding_alignment base len }
    ensures bottom { (base len : ℕ) → 2 ^ 12 ≤ len →
        2 ^ (rounding_exponent base len + 12) ≤ rounded_top base len - rounded_base base len }
    ensures top { (base len : ℕ) → 2 ^ 12 ≤ len → len ≤ 2 ^ 64 →
        rounded_top base len - rounded_base base len < 2 ^ (rounding_exponent base len + 13) }
{}

/// The rounding of a range in the address space is bounds that a capability can have, with the
/// requested base in their window.
pub fn rounding_is_lawful()
    ensures base_below { (base len : ℕ) → base < 2 ^ 64 → rounded_base base len < 2 ^ 64 }
    ensures ordered { (base len : ℕ) → rounded_base base len ≤ rounded_top base len }
    ensures top_at_most { (base len : ℕ) → len ≤ 2 ^ 64 → base + len ≤ 2 ^ 64 →
        rounded_top base len ≤ 2 ^ 64 }
    ensures base_fits { (base len : ℕ) → len ≤ 2 ^ 64 →
        rounded_base base len % alignment (rounded_top base len - rounded_base base len) ≡ 0 }
    ensures top_fits { (base len : ℕ) → len ≤ 2 ^ 64 →
        rounded_top base len % alignment (rounded_top base len - rounded_base base len) ≡ 0 }
    ensures in_window { (base len : ℕ) → len ≤ 2 ^ 64 →
        IsInWindow (rounded_base base len) (rounded_top base len - rounded_base base len) base }
{}

/// A range inside bounds that a capability can have is rounded inside them.
#[tactic(auto, using(crate::proofs::Rounding::RoundingsWithin::rounded_inside))]
pub fn rounding_stays_inside_bounds()
    ensures base { (base0 top0 base len : ℕ) → top0 ≤ 2 ^ 64 →
        base0 % alignment (top0 - base0) ≡ 0 → top0 % alignment (top0 - base0) ≡ 0 →
        base0 ≤ base → base + len ≤ top0 → base0 ≤ rounded_base base len }
    ensures top { (base0 top0 base len : ℕ) → top0 ≤ 2 ^ 64 →
        base0 % alignment (top0 - base0) ≡ 0 → top0 % alignment (top0 - base0) ≡ 0 →
        base0 ≤ base → base + len ≤ top0 → rounded_top base len ≤ top0 }
{}

/// A range is rounded to itself exactly where both ends are multiples of the alignment of its
/// length.
pub fn aligned_ranges_are_exact()
    ensures base { (base len : ℕ) → len ≤ 2 ^ 64 → base % alignment len ≡ 0 →
        (base + len) % alignment len ≡ 0 →
        rounded_base base len ≡ base }
    ensures top { (base len : ℕ) → len ≤ 2 ^ 64 → base % alignment len ≡ 0 →
        (base + len) % alignment len ≡ 0 →
        rounded_top base len ≡ base + len }
    ensures base_fits { (base len : ℕ) → len ≤ 2 ^ 64 → rounded_base base len ≡ base →
        rounded_top base len ≡ base + len →
        base % alignment len ≡ 0 }
    ensures top_fits { (base len : ℕ) → len ≤ 2 ^ 64 → rounded_base base len ≡ base →
        rounded_top base len ≡ base + len →
        (base + len) % alignment len ≡ 0 }
{}

/// The fields B and T of a rounding have 14 and 12 bits, the exponent in them included.
pub fn rounded_fields_have_their_widths()
    ensures b { (base len : ℕ) → len ≤ 2 ^ 64 →
        b_field (internal_exponent len) (rounding_exponent base len) (rounded_base base len)
        < 2 ^ 14 }
    ensures t { (base len : ℕ) → len ≤ 2 ^ 64 →
        t_field (internal_exponent len) (rounding_exponent base len) (rounded_top base len)
        < 2 ^ 12 }
{}
