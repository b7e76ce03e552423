//! Making capabilities from their parts (CHERI ISA v9, "architectural capabilities").

ghost use Rattle.std.specs.Prelude.{◌≡◌, ◌^◌, ◌≤◌, ◌<◌};
ghost use Rattle.cap_model.specs.values.Capability.{IsLawfulType, unsealed_type};
ghost use Rattle.cap_ops.specs.Making.{make_fault_number, made, root_with};

use crate::cap::Cap;
use crate::fields::{with_otype, with_perms, with_rounded_fields};
use cap_bounds::representable;
use cap_model::{ADDRESS_SPACE, OType, Perms};

/// Why no capability has these parts: the first reason that holds.
#[derive(Clone, Copy, Debug, PartialEq, Eq)]
pub enum MakeFault {
    /// Base and length together exceed 2^64.
    PastEnd = 1,
    /// Rounding would change a bound.
    Inexact = 2,
    /// The address is not in the window.
    Unrepresentable = 3,
}

impl MakeFault {
    /// The refusal's number, 1 to 3.
    pub fn number(self) -> u8
        ensures { result ≡ make_fault_number self }
    {
        self as u8
    }
}

impl Cap {
    /// The capability of the whole address space with these permissions, unsealed, at address 0.
    /// Bits of `perms` that no permission has are dropped, here and below.
    pub fn root(perms: Perms) -> Cap
        ensures { result ≡ root_with perms.0 }
    {
        // The bounds fields of a word 0 encode the whole address space, and its object type is
        // unsealed.
        Cap::from_halves(true, with_perms(0, perms.known_bits()), 0)
    }

    /// The unsealed capability of just the `len` addresses from `base` on, with this address and
    /// these permissions. Where there is none the fault is the first that applies, by number.
    pub fn make(base: u64, len: u128, addr: u64, perms: Perms) -> Result<Cap, MakeFault>
        ensures { result ≡ made base len addr perms.0 unsealed_type }
    {
        Cap::make_sealed(base, len, addr, perms, OType::unsealed())
    }

    /// The same, sealed with an object type: a sealable one, or sentry. With the unsealed type this
    /// is `make`, and the faults are the same.
    pub fn make_sealed(
        base: u64,
        len: u128,
        addr: u64,
        perms: Perms,
        otype: OType,
    ) -> Result<Cap, MakeFault>
        requires { IsLawfulType otype }
        ensures { result ≡ made base len addr perms.0 otype }
    {
        if len > ADDRESS_SPACE - u128::from(base) {
            return Err(MakeFault::PastEnd);
        }
        let unbounded = with_otype(with_perms(0, perms.known_bits()), otype.number());
        let (upper, rounded) = with_rounded_fields(unbounded, base, len);
        let exact = rounded.exact;
        if !exact {
            return Err(MakeFault::Inexact);
        }
        // The base itself is always in the window of exact bounds.
        if !representable(upper, base, addr) {
            return Err(MakeFault::Unrepresentable);
        }
        Ok(Cap::from_halves(true, upper, addr))
    }
}
