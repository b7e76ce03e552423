//! Laws that join bounds, fields and words: a lawful capability and its word say the same, at every
//! address of the window (CHERI ISA v9, "capability encoding"; CHERI Concentrate, "representable
//! region").

ghost use Rattle.std.specs.Prelude.{◌≡◌, ℕ, ◌+◌, ◌-◌, ◌*◌, ◌/◌, ◌%◌, ◌^◌, ◌<◌, ◌≤◌, ◌↔◌};
ghost use Rattle.std.specs.Prelude.{Bool, true};
ghost use Rattle.cap_model.specs.bounds.Window.{IsInWindow};
ghost use Rattle.cap_model.specs.words.Fields.{with_null_fields, word_exponent, word_b, word_t14};
ghost use Rattle.cap_model.specs.words.RawBounds.{region_floor, region_start, raw_base, raw_top};
ghost use Rattle.cap_model.specs.results.Rebuilt.{are_aligned};
ghost use Rattle.cap_model.specs.values.Capability.{
  Capability,
  IsLawful,
  upper_of,
  word_of,
  capability_at,
};
ghost use Rattle.cap_model.specs.values.CapValue.{
  CapValue,
  IsLawfulValue,
  IsEncoding,
  IsTaggedWord,
  bits_of,
  tag_of,
  value_at,
};
ghost use Rattle.cap_model.specs.results.EditedWords.{with_bounds_fields};
ghost use Rattle.cap_model.specs.words.WordLaws.{
  IsGreatestBelow,
  HasItsFields,
  HasBoundsFields,
  with_bounds,
};

/// The raw bounds of a lawful capability's word are its bounds.
pub fn lawful_bounds_are_raw_bounds()
    ensures base { (c : Capability) → IsLawful c → raw_base (upper_of c) c.addr ≡ c.base }
    ensures top { (c : Capability) → IsLawful c → raw_top (upper_of c) c.addr ≡ c.top }
{}

/// A lawful capability's word is read as this capability.
pub fn lawful_word_round_trip()
    ensures { (c : Capability) → IsLawful c → capability_at (word_of c) ≡ c }
{}

/// A lawful capability's word has 128 bits, its upper half has 64, and it is an encoding; its
/// fields are those that the capability says.
pub fn lawful_word_is_encoding()
    ensures word { (c : Capability) → IsLawful c → word_of c < 2 ^ 128 }
    ensures upper { (c : Capability) → IsLawful c → upper_of c < 2 ^ 64 }
    ensures encoding { (c : Capability) → IsLawful c → IsEncoding (word_of c) }
    ensures fields { (c : Capability) → IsLawful c → HasItsFields c }
{}

/// Two lawful capabilities with one word are one capability.
pub fn lawful_words_differ()
    ensures { (c d : Capability) → IsLawful c → IsLawful d → word_of c ≡ word_of d → c ≡ d }
{}

/// A lawful value is read back from its tag and its 128 bits, and a tag and a word that may have it
/// give a lawful value.
pub fn lawful_values_read_back()
    ensures back { (v : CapValue) → IsLawfulValue v → value_at (tag_of v) (bits_of v) ≡ v }
    ensures tagged { (v : CapValue) → IsLawfulValue v → IsTaggedWord (tag_of v) (bits_of v) }
    ensures lawful { (tag : Bool) (word : ℕ) → IsTaggedWord tag word →
        IsLawfulValue (value_at tag word) }
{}

/// A lawful capability takes each address of its window: only the lower half of its word changes.
pub fn addresses_move_within_window()
    ensures lawful { (c : Capability) → IsLawful c → (a : ℕ) → a < 2 ^ 64 →
        IsInWindow c.base (c.top - c.base) a →
        IsLawful (record c { addr = a }) }
    ensures word { (c : Capability) (a : ℕ) → word_of (record c { addr = a }) ≡
        upper_of c * 2 ^ 64 + a }
    ensures encoding { (w : ℕ) → IsEncoding w → (a : ℕ) → a < 2 ^ 64 →
        IsInWindow (capability_at w).base ((capability_at w).top - (capability_at w).base) a →
        IsEncoding (w / 2 ^ 64 * 2 ^ 64 + a) }
    ensures read { (w : ℕ) → IsEncoding w → (a : ℕ) → a < 2 ^ 64 →
        IsInWindow (capability_at w).base ((capability_at w).top - (capability_at w).base) a →
        capability_at (w / 2 ^ 64 * 2 ^ 64 + a) ≡ record (capability_at w) { addr = a } }
{}

/// The window holds every address of the bounds, and the top itself, which is 0 where it is 2^64.
pub fn bounds_are_in_window()
    ensures { (base top a : ℕ) → base < 2 ^ 64 → top ≤ 2 ^ 64 → base ≤ a → a ≤ top →
        IsInWindow base (top - base) (a % 2 ^ 64) }
{}

/// The region of an address begins at the greatest number up to the address that is congruent to R
/// * 2^E modulo 2^(E+14), counted from -2^66, which is itself congruent to 0.
pub fn region_start_is_greatest()
    ensures greatest { (e b a : ℕ) → e ≤ 52 →
        IsGreatestBelow (2 ^ (e + 14)) (region_floor b * 2 ^ e) (a + 2 ^ 66) (region_start e b a) }
    ensures whole_regions { (e : ℕ) → e ≤ 52 → 2 ^ 66 % 2 ^ (e + 14) ≡ 0 }
{}

/// The parts of any word, whether or not a capability has it: an exponent up to 52, a base of 64
/// bits and a top of 65.
pub fn raw_bounds_fit()
    ensures exponent { (upper : ℕ) → word_exponent upper ≤ 52 }
    ensures b { (upper : ℕ) → word_b upper < 2 ^ 14 }
    ensures t { (upper : ℕ) → word_t14 upper < 2 ^ 14 }
    ensures base { (upper a : ℕ) → raw_base upper a < 2 ^ 64 }
    ensures top { (upper a : ℕ) → raw_top upper a < 2 ^ 65 }
{}

/// The bounds that a word says are multiples of the alignment of their length, whether or not a
/// capability has the word, where its top is at most 2^64. A base above the top makes a length of
/// 0.
pub fn raw_bounds_are_aligned()
    ensures { (upper a : ℕ) → raw_top upper a ≤ 2 ^ 64 →
        are_aligned (raw_base upper a) (raw_top upper a) ≡ true }
{}

/// The window is where the raw bounds stay as they are: at any other address the base is another
/// one.
pub fn raw_bounds_stay_just_in_window()
    ensures bounds { (c : Capability) → IsLawful c → (a : ℕ) →
        ((raw_base (upper_of c) a ≡ raw_base (upper_of c) c.addr) × (raw_top (upper_of c) a ≡
        raw_top (upper_of c) c.addr))
        ↔ IsInWindow c.base (c.top - c.base) a }
    ensures base_alone { (c : Capability) → IsLawful c → (a : ℕ) → (raw_base (upper_of c) a ≡
        c.base) ↔ IsInWindow c.base (c.top - c.base) a }
{}

/// Exclusive-or with null's fields undoes itself.
pub fn null_fields_undo_themselves()
    ensures { (n : ℕ) → with_null_fields (with_null_fields n) ≡ n }
{}

/// The fields of the bounds can be replaced alone: the other fields stay, and with the fields of
/// other bounds the upper half is that of the capability with these bounds.
pub fn bounds_fields_replaced()
    ensures fields { (upper ie t b : ℕ) → ie < 2 → t < 2 ^ 12 → b < 2 ^ 14 →
        HasBoundsFields upper ie t b (with_bounds_fields upper ie t b) }
    ensures bounds { (c : Capability) → IsLawful c → (base top : ℕ) →
        with_bounds c base top ≡ upper_of (record c { base = base; top = top }) }
{}
