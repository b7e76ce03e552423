//! Values of 128 bits and a tag.

ghost use Rattle.std.specs.Prelude.{◌≡◌, ◌/◌, ◌%◌, ◌^◌, ◌<◌};
ghost use Rattle.cap_model.specs.values.CapValue.{
  raw,
  valid,
  bits_of,
  tag_of,
  parts_of,
  IsEncoding,
  IsLawfulValue,
};
ghost use Rattle.cap_model.specs.values.Capability.{capability_at};

use std::marker::Model;

/// What a register or a granule holds: 128 bits and a tag (CHERI ISA v9, "tags"). A tagged value is
/// the word of a lawful capability.
#[derive(Clone, Copy, Debug, PartialEq, Eq)]
pub struct Value {
    bits: u128,
    tag: bool,
}

impl Model for Value {
    ghost use Rattle.cap_model.specs.values.CapValue.{CapValue, IsTaggedWord};
    ghost use Rattle.cap_model.specs.values.CapValue.{bits_of, tag_of, value_at};
    ghost use Rattle.cap_model.specs.values.ValueFacts.{bits_of-value_at, tag_of-value_at};

    ghost Value = { CapValue };

    ghost view = { λ v. value_at v.tag v.bits };

    ghost invariant = { λ v. IsTaggedWord v.tag v.bits };

    ghost inverse = { λ v. record { bits = bits_of v; tag = tag_of v } };

    ghost inverse_ok = { λ v h i. record {
      bits = bits_of-value_at v.tag v.bits h i;
      tag = tag_of-value_at v.tag v.bits i;
    } };
}

impl Value {
    /// A word of 128 bits without a tag.
    pub fn raw(bits: u128) -> Value
        ensures { result ≡ raw bits }
    {
        Value { bits, tag: false }
    }

    /// The tagged capability with this word.
    pub fn tagged(bits: u128) -> Value
        requires { IsEncoding bits }
        ensures { result ≡ valid (capability_at bits) }
    {
        Value { bits, tag: true }
    }

    /// The 128 bits as in memory.
    pub fn bits(self) -> u128
        ensures value { result ≡ bits_of self }
        ensures lawful { IsLawfulValue self }
    {
        self.bits
    }

    /// The upper 64 bits: all fields but the address.
    pub fn upper(self) -> u64
        ensures value { result ≡ bits_of self / 2 ^ 64 }
        ensures parts { parts_of self ≡ capability_at (bits_of self) }
    {
        (self.bits >> 64) as u64
    }

    /// The address, which is the lower 64 bits.
    pub fn addr(self) -> u64
        ensures value { result ≡ bits_of self % 2 ^ 64 }
        ensures parts { parts_of self ≡ capability_at (bits_of self) }
    {
        (self.bits & 0xFFFF_FFFF_FFFF_FFFF) as u64
    }

    /// Whether the value is a tagged capability.
    pub fn tag(self) -> bool
        ensures value { result ≡ tag_of self }
        ensures lawful { IsLawfulValue self }
    {
        self.tag
    }
}
