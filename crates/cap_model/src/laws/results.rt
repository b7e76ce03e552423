//! Laws on the results of capability instructions, said once for all of them.

ghost use Rattle.std.specs.Prelude.{◌≡◌, Bool, Contains, List, Some, true};
ghost use Rattle.cap_model.specs.declared.reason.Reason.{Reason};
ghost use Rattle.cap_model.specs.results.Derivation.{IsWithin};
ghost use Rattle.cap_model.specs.values.Capability.{Capability, IsLawful, unsealed_type};
ghost use Rattle.cap_model.specs.values.CapValue.{CapValue, valid, tag_of, parts_of, IsLawfulValue};
ghost use Rattle.cap_model.specs.results.CapInstructions.{CapInstruction, capability_result};
ghost use Rattle.cap_model.specs.results.Derivation.{IsDerived};
ghost use Rattle.cap_model.specs.results.Reasons.{first_reason, no_reason, reasons};
ghost use Rattle.cap_model.specs.results.Rebuilt.{build};
ghost use Rattle.cap_model.specs.results.Addresses.{is_open, clear_tag};

/// Lawful values give a lawful value.
pub fn results_are_lawful()
    ensures { (i : CapInstruction) (v w : CapValue) → IsLawfulValue v → IsLawfulValue w →
        IsLawfulValue (capability_result i v w) }
{}

/// Monotonicity (CHERI ISA v9, "capability monotonicity"): a tagged result lies within the
/// instruction's first source, which is tagged, and a sealable type that it has is new only by the
/// authority of the second.
pub fn results_are_derived()
    ensures { (i : CapInstruction) (v w : CapValue) → IsLawfulValue v →
        tag_of (capability_result i v w) ≡ true →
        IsDerived (capability_result i v w) v w }
{}

/// A result is tagged exactly where no line of its instruction's table of reasons holds.
pub fn tags_are_kept_without_reasons()
    ensures { (i : CapInstruction) (v w : CapValue) → IsLawfulValue v →
        tag_of (capability_result i v w) ≡ no_reason (reasons i v w) }
{}

/// The reason that a table tells is that of a line which holds.
pub fn told_reasons_hold()
    ensures { (table : List (Bool × Reason)) (reason : Reason) →
        first_reason table ≡ Some reason → Contains table (true, reason) }
{}

/// An unsealed capability within an open authority is rebuilt under it from its word, which needs
/// no tag: so it can be swapped out to memory without tags, and back in.
pub fn capabilities_are_rebuilt_from_their_words()
    ensures { (authority : CapValue) (c : Capability) → is_open authority ≡ true → IsLawful c →
        c.otype ≡ unsealed_type → IsWithin c (parts_of authority) →
        build authority (clear_tag (valid c)) ≡ valid c }
{}
