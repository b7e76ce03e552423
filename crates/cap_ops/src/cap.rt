//! The capability value, and its conversions to words and back.
//!
//! A value keeps its bounds and fields beside its word, so that they are decoded once, where the
//! word is new.
#![tactic(auto, unfolding(crate::proofs::Unfold::address))]

ghost use Rattle.std.specs.Prelude.{◌≡◌, ◌+◌, ◌*◌, ◌/◌, ◌%◌, ◌^◌, ◌&&◌};
ghost use Rattle.cap_model.specs.values.CapValue.{
  raw,
  bits_of,
  tag_of,
  parts_of,
  value_at,
  IsLawfulValue,
  IsTaggedWord,
};
ghost use Rattle.cap_model.specs.values.Capability.{capability_at};
ghost use Rattle.cap_model.specs.results.EditedWords.{word_of_halves};
ghost use Rattle.cap_model.specs.words.RawBounds.{raw_base, raw_top};
ghost use Rattle.cap_model.specs.results.Readings.{top_of};
ghost use Rattle.cap_model.specs.results.Addresses.{address_of, is_open, keeps_bounds, set_address};
ghost use Rattle.cap_ops.specs.Unpacked.{HasBoundsOf};

use crate::fields::permission_field;
use cap_bounds::{decode, fields};
use cap_model::{ADDRESS_SPACE, UNSEALED_TYPE, Value};
use std::marker::Model;

mod tagged;

/// What a register or a granule holds, as instructions use it: 128 bits and a tag. A tagged one is
/// the word of a lawful capability (CHERI ISA v9, "tags"). Beside the word's two halves stand the
/// bounds and the fields that it is decoded to. They fill the last 8 bytes: a copy of a padded
/// value would wait for its tag to be stored.
#[derive(Clone, Copy, Debug, PartialEq, Eq)]
pub struct Cap {
    pub(crate) top: u128,
    upper: u64,
    addr: u64,
    pub(crate) base: u64,
    pub(crate) otype: u32,
    /// As the word has them: the software permissions right above the others.
    pub(crate) permissions: u16,
    pub(crate) flag: u8,
    tag: bool,
}

impl Model for Cap {
    ghost use Rattle.std.specs.Prelude.{◌%◌, ◌^◌};
    ghost use Rattle.cap_model.specs.values.CapValue.{CapValue, bits_of, tag_of, value_at};
    ghost use Rattle.cap_model.specs.results.EditedWords.{word_of_halves};
    ghost use Rattle.cap_model.specs.words.Fields.{field_of_perms};
    ghost use Rattle.cap_model.specs.results.Readings.{
      base_of,
      top_of,
      high_of,
      flags_of,
      object_type_of,
      permissions_of,
    };
    ghost use Rattle.cap_ops.specs.Unpacked.{IsUnpacked};

    ghost Value = { CapValue };

    ghost view = { λ c. value_at c.tag (word_of_halves c.upper c.addr) };

    ghost invariant = { λ c. IsUnpacked (value_at c.tag (word_of_halves c.upper c.addr))
        c.tag c.upper c.addr c.base c.top c.otype c.permissions c.flag };

    ghost inverse = { λ v. record {
      top = top_of v;
      upper = high_of v;
      addr = bits_of v % 2 ^ 64;
      base = base_of v;
      otype = object_type_of v;
      permissions = field_of_perms (permissions_of v);
      flag = flags_of v;
      tag = tag_of v;
    } };

    ghost inverse_ok = { λ c h i. record {
      top = h.top i;
      upper = h.upper i;
      addr = h.addr i;
      base = h.base i;
      otype = h.otype i;
      permissions = h.permissions i;
      flag = h.flag i;
      tag = h.tag i;
    } };
}

/// The word of two halves.
fn word_of_halves(upper: u64, addr: u64) -> u128
    ensures { result ≡ word_of_halves upper addr }
{
    u128::from(upper) << 64 | u128::from(addr)
}

/// The value of a word with this tag.
fn value_at(tag: bool, bits: u128) -> Value
    requires { IsTaggedWord tag bits }
    ensures { result ≡ value_at tag bits }
{
    if tag {
        Value::tagged(bits)
    } else {
        Value::raw(bits)
    }
}

impl Cap {
    /// The null capability: an untagged word 0.
    pub fn null() -> Cap
        ensures { result ≡ raw 0 }
    {
        Cap::of_int(0)
    }

    /// The untagged word that a register holds when an integer is written to it.
    pub fn of_int(number: u64) -> Cap
        ensures { result ≡ raw number }
    {
        // An upper half 0 is unsealed, and its bounds are the whole address space.
        Cap {
            top: ADDRESS_SPACE,
            upper: 0,
            addr: number,
            base: 0,
            otype: UNSEALED_TYPE,
            permissions: 0,
            flag: 0,
            tag: false,
        }
    }

    /// An untagged word of 128 bits.
    pub fn from_word(bits: u128) -> Cap
        ensures { result ≡ raw bits }
    {
        Cap::from_halves(
            false,
            (bits >> 64) as u64,
            (bits & 0xffff_ffff_ffff_ffff) as u64,
        )
    }

    /// A value of an image, with the same bits and tag.
    pub fn of_value(value: Value) -> Cap
        ensures { result ≡ value }
    {
        Cap::from_halves(value.tag(), value.upper(), value.addr())
    }

    /// This value as an image holds it, with the same bits and tag.
    pub fn value(self) -> Value
        ensures value { result ≡ self }
        ensures lawful { IsLawfulValue self }
    {
        value_at(self.tag, self.bits())
    }

    /// The 128 bits as in memory.
    pub fn bits(self) -> u128
        ensures value { result ≡ bits_of self }
        ensures lawful { IsLawfulValue self }
    {
        word_of_halves(self.upper, self.addr)
    }

    /// Whether this is a tagged capability (CGetTag).
    pub fn tag(self) -> bool
        ensures value { result ≡ tag_of self }
        ensures lawful { IsLawfulValue self }
    {
        self.tag
    }

    /// The upper 64 bits as in memory (CGetHigh).
    pub fn high(self) -> u64
        ensures value { result ≡ bits_of self / 2 ^ 64 }
        ensures parts { parts_of self ≡ capability_at (bits_of self) }
    {
        self.upper
    }

    /// The address (CGetAddr), which is also what the register is as an integer.
    pub fn addr(self) -> u64
        ensures value { result ≡ (parts_of self).addr }
        ensures integer { result ≡ address_of self }
        ensures bits { result ≡ bits_of self % 2 ^ 64 }
        ensures parts { parts_of self ≡ capability_at (bits_of self) }
    {
        self.addr
    }

    /// Lends the top, which is the first address above the bounds.
    pub fn top_ref(&self) -> &u128
        ensures { result.now ≡ top_of self.now }
    {
        &self.top
    }

    /// The word of two halves with this tag.
    pub(crate) fn from_halves(tag: bool, upper: u64, addr: u64) -> Cap
        requires { IsTaggedWord tag (word_of_halves upper addr) }
        ensures { result ≡ value_at tag (word_of_halves upper addr) }
    {
        Cap::from_decoded(tag, upper, addr, decode(upper, addr))
    }

    /// The same, where the word's base and top are known.
    pub(crate) fn from_decoded(tag: bool, upper: u64, addr: u64, bounds: (u64, u128)) -> Cap
        requires tagged { IsTaggedWord tag (word_of_halves upper addr) }
        requires base { bounds.0 ≡ raw_base upper addr }
        requires top { bounds.1 ≡ raw_top upper addr }
        ensures { result ≡ value_at tag (word_of_halves upper addr) }
    {
        let (base, top) = bounds;
        let parts = fields(upper);
        Cap {
            top,
            upper,
            addr,
            base,
            otype: parts.otype,
            permissions: permission_field(upper),
            flag: parts.flag,
            tag,
        }
    }

    /// With another upper half, which has the same bounds, and this tag.
    pub(crate) fn edited(self, tag: bool, upper: u64) -> Cap
        requires tagged { IsTaggedWord tag (word_of_halves upper (bits_of self % 2 ^ 64)) }
        requires bounds { HasBoundsOf (bits_of self / 2 ^ 64) upper }
        ensures { result ≡ value_at tag (word_of_halves upper (bits_of self % 2 ^ 64)) }
    {
        Cap::from_decoded(tag, upper, self.addr, (self.base, self.top))
    }

    /// At another address, where it is known whether the tag stays.
    pub(crate) fn moved(self, addr: u64, kept: bool) -> Cap
        requires { kept ≡ (is_open self && keeps_bounds self addr) }
        ensures { result ≡ set_address self addr }
    {
        let (base, top) = self.bounds_at(addr, kept);
        Cap {
            top,
            addr,
            base,
            tag: kept,
            ..self
        }
    }

    /// The bounds that the word has at another address. An open value that keeps its bounds needs
    /// no decoding.
    fn bounds_at(self, addr: u64, kept: bool) -> (u64, u128)
        requires { kept ≡ (is_open self && keeps_bounds self addr) }
        ensures base { result.0 ≡ raw_base (bits_of self / 2 ^ 64) addr }
        ensures top { result.1 ≡ raw_top (bits_of self / 2 ^ 64) addr }
    {
        if kept {
            (self.base, self.top)
        } else {
            decode(self.upper, addr)
        }
    }
}
