//! The law of CRRL and CRAM (CHERI ISA v9, CRoundRepresentableLength and
//! CRepresentableAlignmentMask).
#![tactic(auto, using(crate::proofs::Rulesets::aligning))]

ghost use Rattle.std.specs.Prelude.{◌≡◌, ℕ, ◌+◌, ◌%◌, ◌^◌, ◌<◌, ◌≤◌, bit_and};
ghost use Rattle.cap_model.specs.bounds.Numbers.{round_down};
ghost use Rattle.cap_model.specs.bounds.Lengths.{alignment};
ghost use Rattle.cap_model.specs.bounds.Rounding.{rounded_base, rounded_top};
ghost use Rattle.cap_model.specs.bounds.Alignment.{length_at_zero, representable_length};
ghost use Rattle.cap_model.specs.bounds.Alignment.{alignment_mask};

/// A range whose length is one that CRRL gives, at a base that is a multiple of that length's
/// alignment, is rounded to itself.
pub fn representable_length_is_exact()
    ensures base { (base len : ℕ) → len ≤ 2 ^ 64 → base % alignment (length_at_zero len) ≡ 0 →
        rounded_base base (length_at_zero len) ≡ base }
    ensures top { (base len : ℕ) → len ≤ 2 ^ 64 → base % alignment (length_at_zero len) ≡ 0 →
        rounded_top base (length_at_zero len) ≡ base + length_at_zero len }
{}

/// The length that CRRL gives is at least the requested one and at most 2^64, for which a register
/// holds 0.
pub fn representable_length_is_enough()
    ensures enough { (len : ℕ) → len ≤ length_at_zero len }
    ensures at_most { (len : ℕ) → len ≤ 2 ^ 64 → length_at_zero len ≤ 2 ^ 64 }
    ensures whole { (len : ℕ) → length_at_zero len < 2 ^ 64 → representable_length len ≡
        length_at_zero len }
    ensures wrapped { (len : ℕ) → length_at_zero len ≡ 2 ^ 64 → representable_length len ≡ 0 }
{}

/// The length that CRRL gives is the least one, not below the requested one, that a range can have
/// which is rounded to itself, at any base.
pub fn representable_length_is_least()
    ensures { (base len exact : ℕ) → len ≤ exact → exact ≤ 2 ^ 64 →
        rounded_base base exact ≡ base → rounded_top base exact ≡ base + exact →
        length_at_zero len ≤ exact }
{}

/// The mask that CRAM gives rounds an address down to the alignment of the length that CRRL gives.
pub fn alignment_mask_rounds_down()
    ensures { (len address : ℕ) → len ≤ 2 ^ 64 → address < 2 ^ 64 →
        bit_and address (alignment_mask len) ≡ round_down (alignment (length_at_zero len)) address }
{}
