//! Laws over the making of capabilities: each function does nothing, and its contract is the law.

ghost use Rattle.std.specs.Prelude.{◌≡◌, ℕ, ◌-◌, ◌^◌, ◌<◌, ◌↔◌, IsTrue, Ok};
ghost use Rattle.cap_model.specs.values.Capability.{Capability, IsLawful, word_of};
ghost use Rattle.cap_model.specs.values.CapValue.{valid, IsEncoding};
ghost use Rattle.cap_ops.specs.Making.{made};
ghost use Rattle.cap_ops.specs.Tagged.{is_encoding};

/// A lawful capability whose flag is 0 is made of its own parts. So a listing can write each such
/// capability by its parts and read it back.
pub fn parts_make_it_again()
    ensures { (c : Capability) → IsLawful c → c.flag ≡ 0 →
        made c.base (c.top - c.base) c.addr c.perms c.otype ≡ Ok (valid c) }
{}

/// The words on which a tag from outside counts are just those of lawful capabilities.
pub fn tags_count_on_words_of_capabilities()
    ensures encoding { (word : ℕ) → word < 2 ^ 128 → IsTrue (is_encoding word) ↔ IsEncoding word }
    ensures capability { (word : ℕ) → word < 2 ^ 128 →
        IsTrue (is_encoding word) ↔ ((c : Capability) × (IsLawful c × (word_of c ≡ word))) }
{}
