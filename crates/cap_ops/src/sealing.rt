//! Sealing and unsealing by object type (CHERI ISA v9, "sealed capabilities").
#![tactic(auto, using(crate::proofs::Unfold::unsealing), unfolding(crate::proofs::Unfold::integer))]

ghost use Rattle.std.specs.Prelude.{◌≡◌, ◌%◌, ◌^◌, ◌<◌, ◌==◌, ◌&&◌};
ghost use Rattle.cap_model.specs.values.CapValue.{tag_of, parts_of, IsLawfulValue};
ghost use Rattle.cap_model.specs.values.Capability.{IsPermissionSet};
ghost use Rattle.cap_model.specs.results.Addresses.{address_of, is_open, has_permission};
ghost use Rattle.cap_model.specs.results.Seals.{
  seal_permission,
  unseal_permission,
  execute_permission,
  is_sealable,
  has_type_authority,
  seal,
  unsealed_perms,
  unseal,
  seal_entry,
  unsealed,
};

use crate::cap::Cap;
use crate::fields::{with_otype, with_perms};
use cap_model::{LAST_SEALABLE_TYPE, SENTRY_TYPE, UNSEALED_TYPE, permission};

impl Cap {
    /// Sealed with the authority's address as its object type (CSeal). The tag stays where this is
    /// open, the authority is open, has Seal and its address in its bounds, and the type is a
    /// sealable one.
    pub fn seal(self, authority: Cap) -> Cap
        ensures { result ≡ seal self authority }
    {
        let otype = authority.addr();
        let kept = self.may_seal(authority);
        self.edited(kept, with_otype(self.high(), (otype % (1 << 18)) as u32))
    }

    /// Unsealed (CUnseal). Global stays only where both have it. The tag stays where this is tagged
    /// with a sealable type, and the authority is open, has Unseal and this type as its address, in
    /// its bounds.
    pub fn unseal(self, authority: Cap) -> Cap
        ensures { result ≡ unseal self authority }
    {
        let perms = self.unsealed_perms(authority);
        let kept = self.may_unseal(authority);
        let upper = with_perms(with_otype(self.high(), UNSEALED_TYPE), perms);
        self.edited(kept, upper)
    }

    /// Sealed as a sentry, which can only be jumped to (CSealEntry). The tag stays where this is
    /// open and has Execute.
    pub fn seal_entry(self) -> Cap
        ensures { result ≡ seal_entry self }
    {
        let kept = self.may_seal_entry();
        self.edited(kept, with_otype(self.high(), SENTRY_TYPE))
    }

    /// Unsealed, with the tag as it is: what a jump makes of a sentry, and of a sealed pair (CJALR,
    /// CInvoke). It needs no authority; the jump makes its own checks.
    pub fn unsealed(self) -> Cap
        ensures { result ≡ unsealed self }
    {
        self.edited(self.tag(), with_otype(self.high(), UNSEALED_TYPE))
    }

    /// Whether this may be sealed under the authority.
    fn may_seal(self, authority: Cap) -> bool
        ensures value { result ≡ (is_open self && has_type_authority authority seal_permission
            && is_sealable (address_of authority)) }
        ensures lawful { IsLawfulValue self }
    {
        if !self.is_open() {
            return false;
        }
        if !authority.has_type_authority(permission::SEAL) {
            return false;
        }
        authority.addr() <= u64::from(LAST_SEALABLE_TYPE)
    }

    /// Whether this may be unsealed under the authority.
    fn may_unseal(self, authority: Cap) -> bool
        ensures value { result ≡ (tag_of self && is_sealable (parts_of self).otype
            && has_type_authority authority unseal_permission
            && (address_of authority == (parts_of self).otype)) }
        ensures lawful { IsLawfulValue self }
    {
        let tagged = self.tag();
        let otype = self.object_type().number();
        if !tagged {
            return false;
        }
        if otype > LAST_SEALABLE_TYPE {
            return false;
        }
        if !authority.has_type_authority(permission::UNSEAL) {
            return false;
        }
        authority.addr() == u64::from(otype)
    }

    /// Whether this may be sealed as a sentry.
    fn may_seal_entry(self) -> bool
        ensures value { result ≡ (is_open self && has_permission self execute_permission) }
        ensures lawful { IsLawfulValue self }
    {
        if !self.is_open() {
            return false;
        }
        self.has_permission(permission::EXECUTE)
    }

    /// Whether this has authority, by the permission with this number, over the object type that is
    /// its address.
    fn has_type_authority(self, permission: u32) -> bool
        requires { permission < 19 }
        ensures { result ≡ has_type_authority self permission }
    {
        if !self.is_open() {
            return false;
        }
        if !self.has_permission(permission) {
            return false;
        }
        self.holds(self.addr(), 1)
    }

    /// The permissions after unsealing under the authority.
    fn unsealed_perms(self, authority: Cap) -> u32
        ensures value { result ≡ unsealed_perms self authority }
        ensures known { IsPermissionSet result }
    {
        // The contract of `tag` says that the value is lawful.
        let _tag = self.tag();
        let perms = self.permission_bits();
        if authority.has_permission(permission::GLOBAL) {
            perms
        } else {
            perms / 2 * 2
        }
    }
}
