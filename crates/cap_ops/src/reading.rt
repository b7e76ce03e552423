//! What instructions read off a value, tagged or not. Nothing here decodes the bounds.
#![tactic(auto, using(crate::proofs::Unfold::known), unfolding(crate::proofs::Unfold::readings))]

ghost use Rattle.std.specs.Prelude.{◌≡◌, ◌+◌, ◌^◌, ◌<◌, ◌≤◌, ◌&&◌};
ghost use Rattle.cap_model.specs.values.CapValue.{tag_of, parts_of, IsLawfulValue};
ghost use Rattle.cap_model.specs.values.Capability.{IsPermissionSet};
ghost use Rattle.cap_model.specs.results.Addresses.{is_open, has_permission, in_bounds, length_of};
ghost use Rattle.cap_model.specs.results.Readings.{
  permissions_of,
  object_type_of,
  type_number_of,
  base_of,
  top_of,
  flags_of,
  offset_of,
  is_sealed,
};
ghost use Rattle.cap_model.specs.results.Swept.{is_in_sweep};

use crate::cap::Cap;
use crate::fields::shown_permissions;
use bitflags::Flags;
use cap_model::{LAST_SEALABLE_TYPE, OType, Perms, UNSEALED_TYPE};

impl Cap {
    /// The bounds: the base, and the top, which is the first address above them. The top of a word
    /// that no instruction makes may lie below its base.
    pub fn bounds(self) -> (u64, u128)
        ensures base { result.0 ≡ base_of self }
        ensures top { result.1 ≡ top_of self }
        ensures top_below { result.1 < 2 ^ 65 }
        ensures lawful { IsLawfulValue self }
    {
        (self.base, self.top)
    }

    /// Whether the `bytes` addresses from `from` on lie in the bounds, as whole numbers.
    pub fn holds(self, from: u64, bytes: u64) -> bool
        ensures { result ≡ in_bounds self from bytes }
    {
        let (base, top) = self.bounds();
        base <= from && u128::from(from) + u128::from(bytes) <= top
    }

    /// The base (CGetBase).
    pub fn base(self) -> u64
        ensures { result ≡ base_of self }
    {
        self.base
    }

    /// The length (CGetLen): the top less the base modulo 2^65, and 2^64 - 1 where that is more.
    pub fn len(self) -> u64
        ensures { result ≡ length_of self }
    {
        let (base, top) = self.bounds();
        let len = (top + (1 << 65) - u128::from(base)) % (1 << 65);
        len.min(0xffff_ffff_ffff_ffff) as u64
    }

    /// The address less the base, modulo 2^64 (CGetOffset).
    pub fn offset(self) -> u64
        ensures { result ≡ offset_of self }
    {
        self.addr().wrapping_sub(self.base)
    }

    /// The permissions (CGetPerm).
    pub fn perm(self) -> Perms
        ensures value { result.0 ≡ permissions_of self }
        ensures known { IsPermissionSet result.0 }
    {
        Perms::from_bits_retain(self.permission_bits())
    }

    /// The permissions as the bits that CGetPerm shows.
    pub(crate) fn permission_bits(self) -> u32
        ensures value { result ≡ permissions_of self }
        ensures known { IsPermissionSet result }
    {
        // The contract of `tag` says that the value is lawful.
        let _tag = self.tag();
        shown_permissions(self.permissions)
    }

    /// The object type, of 18 bits.
    pub fn object_type(self) -> OType
        ensures { result ≡ object_type_of self }
    {
        OType::new(self.otype)
    }

    /// The object type as an integer register has it (CGetType): a type above the sealable ones is
    /// sign-extended from 18 bits, so that unsealed is 2^64 - 1.
    pub fn otype(self) -> u64
        ensures { result ≡ type_number_of self }
    {
        let number = self.object_type().number();
        if number > LAST_SEALABLE_TYPE {
            0xffff_ffff_fffc_0000 + u64::from(number)
        } else {
            u64::from(number)
        }
    }

    /// The flag, 0 or 1 (CGetFlags).
    pub fn flags(self) -> u8
        ensures { result ≡ flags_of self }
    {
        self.flag
    }

    /// Whether the object type is any but unsealed (CGetSealed); a sentry is sealed too.
    pub fn sealed(self) -> bool
        ensures { result ≡ is_sealed self }
    {
        self.object_type().number() != UNSEALED_TYPE
    }

    /// Whether this is open: tagged and not sealed. Most changes keep the tag of such a value
    /// alone.
    pub fn is_open(self) -> bool
        ensures value { result ≡ is_open self }
        ensures lawful { IsLawfulValue self }
    {
        if !self.tag() {
            return false;
        }
        self.object_type().number() == UNSEALED_TYPE
    }

    /// Whether this has the permission with this number: 0 to 11, or 15 to 18 for one left to
    /// software. Nothing has 12 to 14.
    pub fn has_permission(self, number: u32) -> bool
        requires { number < 19 }
        ensures { result ≡ has_permission self number }
    {
        self.permission_bits() >> number & 1 == 1
    }

    /// Whether a sweep of the addresses from `lo` up to `hi` clears the tag: this is tagged, sealed
    /// or not, and its base lies there.
    pub fn is_in_sweep(self, lo: u64, hi: u128) -> bool
        ensures value { result ≡ is_in_sweep lo hi self }
        ensures lawful { IsLawfulValue self }
    {
        if !self.tag() {
            return false;
        }
        let base = self.base();
        lo <= base && u128::from(base) < hi
    }
}
