//! Object types (CHERI ISA v9, "object types"). Which numbers are sealable or reserved is this
//! project's own.

ghost use Rattle.std.specs.Prelude.{◌≡◌, ℕ, ◌^◌, ◌<◌};

use std::marker::Model;

/// The object type of what is not sealed: the greatest number of 18 bits.
pub const UNSEALED_TYPE: u32 = 0x3_FFFF;

/// The object type of a sealed entry (sentry), which can only be jumped to.
pub const SENTRY_TYPE: u32 = 0x3_FFFE;

/// The greatest object type that CSeal can give. The two numbers between it and the sentry's are
/// reserved.
pub const LAST_SEALABLE_TYPE: u32 = 0x3_FFFB;

/// An object type: a number below 2^18.
#[derive(Clone, Copy, Debug, PartialEq, Eq)]
pub struct OType {
    number: u32,
}

impl Model for OType {
    ghost Value = { ℕ };

    ghost view = { λ t. t.number };

    ghost invariant = { λ t. t.number < 2 ^ 18 };

    ghost inverse = { λ n. record { number = n } };
}

impl OType {
    /// The type of a capability that is not sealed.
    pub fn unsealed() -> OType
        ensures { result ≡ UNSEALED_TYPE }
    {
        OType {
            number: UNSEALED_TYPE,
        }
    }

    /// The type of a sealed entry, which can only be jumped to.
    pub fn sentry() -> OType
        ensures { result ≡ SENTRY_TYPE }
    {
        OType {
            number: SENTRY_TYPE,
        }
    }

    /// The type with this number.
    pub fn new(number: u32) -> OType
        requires { number < 2 ^ 18 }
        ensures { result ≡ number }
    {
        OType { number }
    }

    /// The type's number.
    pub fn number(self) -> u32
        ensures value { result ≡ self }
        ensures below { result < 2 ^ 18 }
    {
        self.number
    }
}
