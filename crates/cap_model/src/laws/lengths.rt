//! Laws on the exponent and the alignment of a length (CHERI Concentrate, "internal exponents").
#![tactic(auto, using(crate::proofs::Rulesets::lengths))]

ghost use Rattle.std.specs.Prelude.{◌≡◌, ℕ, ◌+◌, ◌*◌, ◌/◌, ◌^◌, ◌<◌, ◌≤◌, Bool, IsTrue, IsFalse};
ghost use Rattle.cap_model.specs.bounds.Numbers.{first_from};
ghost use Rattle.cap_model.specs.bounds.Lengths.{exponent, internal_exponent, alignment};

/// A search answers the least number that passes the test, where one of those that it tries does.
pub fn search_finds_the_least()
    ensures passes { (test : ℕ → Bool) (tries k n : ℕ) → k ≤ n → n < k + tries → IsTrue (test n) →
        IsTrue (test (first_from test tries k)) }
    ensures least { (test : ℕ → Bool) (tries k n : ℕ) → k ≤ n → IsTrue (test n) →
        first_from test tries k ≤ n }
    ensures none_before { (test : ℕ → Bool) (tries k n : ℕ) → k ≤ n →
        n < first_from test tries k → IsFalse (test n) }
    ensures from { (test : ℕ → Bool) (tries k : ℕ) → k ≤ first_from test tries k }
    ensures within { (test : ℕ → Bool) (tries k : ℕ) → first_from test tries k ≤ k + tries }
{}

/// The exponent of a length is 0 below 2^13, and from there on the greatest e with 2^(e+12) at most
/// the length.
pub fn exponent_is_greatest()
    ensures small { (len : ℕ) → len < 2 ^ 13 → exponent len ≡ 0 }
    ensures bottom { (len : ℕ) → 2 ^ 13 ≤ len → 2 ^ (exponent len + 12) ≤ len }
    ensures top { (len : ℕ) → len ≤ 2 ^ 64 → len < 2 ^ (exponent len + 13) }
    ensures greatest { (len e : ℕ) → len ≤ 2 ^ 64 → 2 ^ (e + 12) ≤ len → e ≤ exponent len }
    ensures at_most { (len : ℕ) → len ≤ 2 ^ 64 → exponent len ≤ 52 }
{}

/// The exponent of a length is the number of binary digits of the length divided by 2^13.
pub fn exponent_counts_digits()
    ensures { (len digits : ℕ) → len ≤ 2 ^ 64 → len / 2 ^ 13 < 2 ^ digits →
        2 ^ digits ≤ 2 * (len / 2 ^ 13) + 1 →
        exponent len ≡ digits }
{}

/// The internal exponent bit is 0 below 2^12, and 1 from there on.
pub fn internal_exponent_by_length()
    ensures small { (len : ℕ) → len < 2 ^ 12 → internal_exponent len ≡ 0 }
    ensures long { (len : ℕ) → 2 ^ 12 ≤ len → internal_exponent len ≡ 1 }
{}

/// The alignment is 1 below 2^12, and 2^(E+3) from there on: a power of two.
pub fn alignment_by_length()
    ensures small { (len : ℕ) → len < 2 ^ 12 → alignment len ≡ 1 }
    ensures long { (len : ℕ) → 2 ^ 12 ≤ len → alignment len ≡ 2 ^ (exponent len + 3) }
    ensures power { (len : ℕ) → (n : ℕ) × (alignment len ≡ 2 ^ n) }
{}
