//! Capabilities made of their parts.

ghost use Rattle.std.specs.Prelude.{◌≡◌, ◌+◌, ◌*◌, ◌^◌, Ok, Err};
ghost use Rattle.cap_ops.specs.Tagged.{is_lawful_type};
ghost use Rattle.cheri_caps.specs.Structs.{refused, made_struct, make_answer};

use crate::structs::CheriMade;
use crate::values::struct_of;
use bitflags::Flags;
use cap_model::{LAST_SEALABLE_TYPE, OType, Perms, SENTRY_TYPE, UNSEALED_TYPE};
use cap_ops::{Cap, MakeFault};

/// Of `make`: no capability has this type.
const RESERVED_TYPE: u8 = 4;

/// The capability of just the `len + len_high * 2^64` addresses from `base` on, with this address,
/// permissions and type, and flag 0; bits that no permission has are dropped. Otherwise null and
/// the first status that applies: 4, the type is reserved or none of 18 bits; 1, the end is past
/// the address space; 2, the bounds would be rounded; 3, the bounds cannot have this address.
#[unsafe(no_mangle)]
pub extern "C" fn cheri_caps_make(
    base: u64,
    len: u64,
    len_high: u64,
    addr: u64,
    perms: u32,
    otype: u32,
) -> CheriMade
    ensures { result ≡ make_answer base (len + len_high * 2 ^ 64) addr perms otype }
{
    if !is_lawful_type(otype) {
        return refused(RESERVED_TYPE);
    }
    let len = u128::from(len_high) << 64 | u128::from(len);
    made_struct(Cap::make_sealed(
        base,
        len,
        addr,
        Perms::from_bits_retain(perms),
        OType::new(otype),
    ))
}

/// Whether a capability can have this type.
fn is_lawful_type(otype: u32) -> bool
    ensures { result ≡ is_lawful_type otype }
{
    otype <= LAST_SEALABLE_TYPE || otype == SENTRY_TYPE || otype == UNSEALED_TYPE
}

/// Null and why there is no capability.
fn refused(status: u8) -> CheriMade
    ensures { result ≡ refused status }
{
    CheriMade {
        cap: struct_of(Cap::null()),
        status,
    }
}

/// What was made, or why not.
fn made_struct(made: Result<Cap, MakeFault>) -> CheriMade
    ensures { result ≡ made_struct made }
{
    match made {
        Ok(value) => CheriMade {
            cap: struct_of(value),
            status: 0,
        },
        Err(fault) => refused(fault.number()),
    }
}
