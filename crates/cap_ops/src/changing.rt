//! Changes of one part of a value. A value that is not open, or a change that is not allowed, gives
//! the same edited word without a tag (CHERI ISA v9, "capability instructions").
#![tactic(auto, using(crate::proofs::Unfold::masks), unfolding(crate::proofs::Unfold::changes))]

ghost use Rattle.std.specs.Prelude.{◌≡◌, ◌+◌, ◌%◌, ◌^◌, ◌&&◌, true};
ghost use Rattle.cap_model.specs.values.CapValue.{parts_of, IsLawfulValue};
ghost use Rattle.cap_model.specs.results.Addresses.{
  address_of,
  is_open,
  in_bounds,
  keeps_bounds,
  is_exact,
  clear_tag,
  set_address,
  inc_offset,
  set_bounds,
  set_bounds_exact,
};
ghost use Rattle.cap_model.specs.results.Fields.{and_perm, set_flags, set_high};
ghost use Rattle.cap_model.specs.words.RawBounds.{raw_base, raw_top};

use crate::cap::Cap;
use crate::fields::{with_flag, with_perms, with_rounded_fields};
use cap_bounds::{Rounded, decode, representable};

/// The bounds of a word, which are its rounding's where the tag stays: then nothing is decoded. A
/// rounding past the address space has bounds that no word is decoded to.
fn rounded_bounds(kept: bool, upper: u64, addr: u64, rounded: Rounded) -> (u64, u128)
    requires base { kept ≡ true → rounded.base ≡ raw_base upper addr }
    requires top { kept ≡ true → rounded.top ≡ raw_top upper addr }
    ensures base { result.0 ≡ raw_base upper addr }
    ensures top { result.1 ≡ raw_top upper addr }
{
    if kept {
        (rounded.base, rounded.top)
    } else {
        decode(upper, addr)
    }
}

impl Cap {
    /// The same word without a tag (CClearTag).
    pub fn clear_tag(self) -> Cap
        ensures { result ≡ clear_tag self }
    {
        self.edited(false, self.high())
    }

    /// Another address (CSetAddr). The tag stays where this is open and the bounds stay the same.
    pub fn set_addr(self, addr: u64) -> Cap
        ensures { result ≡ set_address self addr }
    {
        self.moved(addr, self.keeps_tag_at(addr))
    }

    /// The address raised by an offset, modulo 2^64 (CIncOffset). The tag stays as in `set_addr`.
    pub fn inc_offset(self, offset: u64) -> Cap
        ensures { result ≡ inc_offset self offset }
    {
        self.set_addr(self.addr().wrapping_add(offset))
    }

    /// `set_addr` to an address where this is known to be open and to keep its bounds: nothing is
    /// tested, and nothing decoded.
    pub fn at(self, addr: u64) -> Cap
        requires open { is_open self ≡ true }
        requires kept { keeps_bounds self addr ≡ true }
        ensures { result ≡ set_address self addr }
    {
        self.moved(addr, true)
    }

    /// Whether this is open and keeps its bounds at another address.
    fn keeps_tag_at(self, addr: u64) -> bool
        ensures value { result ≡ (is_open self && keeps_bounds self addr) }
        ensures lawful { IsLawfulValue self }
    {
        if !self.is_open() {
            return false;
        }
        // The window holds the bounds and the top.
        if self.base <= addr && u128::from(addr) <= self.top {
            return true;
        }
        representable(self.high(), self.addr(), addr)
    }

    /// The bounds of `len` addresses from the address on, rounded to bounds that a capability can
    /// have (CSetBounds). The tag stays where this is open and the requested range lies in its
    /// bounds.
    pub fn set_bounds(self, len: u64) -> Cap
        ensures { result ≡ set_bounds self len }
    {
        let addr = self.addr();
        let kept = self.may_narrow(len);
        let (upper, rounded) = with_rounded_fields(self.high(), addr, u128::from(len));
        Cap::from_decoded(
            kept,
            upper,
            addr,
            rounded_bounds(kept, upper, addr, rounded),
        )
    }

    /// As `set_bounds`, and the tag stays only where nothing is rounded (CSetBoundsExact).
    pub fn set_bounds_exact(self, len: u64) -> Cap
        ensures { result ≡ set_bounds_exact self len }
    {
        let addr = self.addr();
        let (upper, rounded) = with_rounded_fields(self.high(), addr, u128::from(len));
        let kept = self.may_narrow_exactly(len, rounded.exact);
        Cap::from_decoded(
            kept,
            upper,
            addr,
            rounded_bounds(kept, upper, addr, rounded),
        )
    }

    /// Whether this is open and the range of `len` addresses from its address on lies in its
    /// bounds.
    fn may_narrow(self, len: u64) -> bool
        ensures value { result ≡ (is_open self && in_bounds self (address_of self) len) }
        ensures lawful { IsLawfulValue self }
    {
        let inside = self.holds(self.addr(), len);
        self.is_open() && inside
    }

    /// The same, and that nothing is rounded.
    fn may_narrow_exactly(self, len: u64, exact: bool) -> bool
        ensures value { result ≡ (is_open self && in_bounds self (address_of self) len && exact) }
        ensures lawful { IsLawfulValue self }
    {
        let kept = self.may_narrow(len);
        if exact { kept } else { false }
    }

    /// The permissions that are also in the mask, which has CGetPerm's form (CAndPerm). The tag
    /// stays where this is open.
    pub fn and_perm(self, mask: u64) -> Cap
        ensures { result ≡ and_perm self mask }
    {
        let perms = (u64::from(self.permission_bits()) & mask) as u32;
        self.edited(self.is_open(), with_perms(self.high(), perms))
    }

    /// The lowest bit of a number as the flag (CSetFlags). The tag stays where this is open.
    pub fn set_flags(self, flags: u64) -> Cap
        ensures { result ≡ set_flags self flags }
    {
        let flag = (flags % 2) as u8;
        self.edited(self.is_open(), with_flag(self.high(), flag))
    }

    /// Another upper half, never with a tag (CSetHigh).
    pub fn set_high(self, upper: u64) -> Cap
        ensures { result ≡ set_high self upper }
    {
        Cap::from_word(u128::from(upper) << 64 | u128::from(self.addr()))
    }
}
