//! Rebuilding a capability from what a word says, under an authority (CHERI ISA v9, CBuildCap).

ghost use Rattle.std.specs.Prelude.{◌≡◌, ◌/◌, ◌^◌, ◌==◌, ◌&&◌, nat_le};
ghost use Rattle.cap_model.specs.values.CapValue.{bits_of, parts_of, IsLawfulValue};
ghost use Rattle.cap_model.specs.words.Fields.{word_reserved};
ghost use Rattle.cap_model.specs.results.Readings.{base_of, top_of, lies_in};
ghost use Rattle.cap_model.specs.results.Rebuilt.{build};
ghost use Rattle.cap_model.specs.results.Addresses.{is_open};

use crate::cap::Cap;
use cap_bounds::fields;

impl Cap {
    /// The capability that the word of `source` says, unsealed, under this authority (CBuildCap).
    /// It is tagged where this is open, the source's bounds and permissions lie in its own, and a
    /// capability can have these bounds and this address, with no reserved bit; otherwise it is the
    /// source's word without a tag. Whether the source has a tag does not matter. A second spelling
    /// of the same bounds gives the one word that a capability has.
    pub fn build(self, source: Cap) -> Cap
        ensures { result ≡ build self source }
    {
        if !self.may_build(source) {
            return source.clear_tag();
        }
        let (base, top) = source.bounds();
        let len = top - u128::from(base);
        match Cap::make(base, len, source.addr(), source.perm()) {
            Ok(made) => made.set_flags(u64::from(source.flags())),
            // No capability has these bounds, or this address with them.
            Err(_) => source.clear_tag(),
        }
    }

    /// Whether this is open and holds what the source says, which has no reserved bit and does not
    /// end before it begins.
    fn may_build(self, source: Cap) -> bool
        ensures value { result ≡ (is_open self && lies_in (parts_of self) (parts_of source)
            && ((word_reserved (bits_of source / 2 ^ 64) == 0)
            && nat_le (base_of source) (top_of source))) }
        ensures authority { IsLawfulValue self }
        ensures source { IsLawfulValue source }
    {
        let (base, top) = source.bounds();
        if !self.is_open() {
            return false;
        }
        if !self.holds_parts_of(source) {
            return false;
        }
        if fields(source.high()).reserved != 0 {
            return false;
        }
        u128::from(base) <= top
    }
}
