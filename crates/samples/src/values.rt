//! Values that the rows of tests give and find.

ghost use Rattle.std.specs.Prelude.{◌≡◌, ◌/◌, ◌%◌, ◌^◌};
ghost use Rattle.cap_model.specs.values.CapValue.{bits_of, tag_of};
ghost use Rattle.cap_model.specs.values.Capability.{unsealed_type};
ghost use Rattle.cap_ops.specs.Making as making;
ghost use Rattle.samples.specs.Values.{given_value};

use bitflags::Flags;
use cap_ops::{Cap, MakeFault};
use cheri_model::Perms;

/// The bits of every permission.
pub const ALL: u32 = 0x7_8fff;

/// A value that a row gives.
#[derive(Clone, Copy, Debug, PartialEq, Eq)]
pub enum Given {
    /// An integer.
    Int(u64),
    /// An untagged word by its upper half and its address.
    Word(u64, u64),
    /// The base, length, address and permission bits of an unsealed capability.
    Open(u64, u128, u64, u32),
    /// The same of a sentry, which has Execute.
    Sentry(u64, u128, u64, u32),
    /// The same and the object type of a sealed capability.
    Sealed(u64, u128, u64, u32, u64),
}

/// The integer 0.
pub const NULL: Given = Given::Int(0);

/// The sixteen bytes from 0x8000_0000 on, with all permissions, at the first of them.
pub const K: Given = Given::Open(0x8000_0000, 16, 0x8000_0000, ALL);

/// The set with these permission bits.
pub fn perms(bits: u32) -> Perms
    ensures { result.0 ≡ bits }
{
    Perms::from_bits_retain(bits)
}

/// The unsealed capability of just the `len` addresses from `base` on, at `addr`, with these
/// permission bits, or why there is none.
pub fn made(base: u64, len: u128, addr: u64, bits: u32) -> Result<Cap, MakeFault>
    ensures { result ≡ making.made base len addr bits unsealed_type }
{
    Cap::make(base, len, addr, perms(bits))
}

impl Given {
    /// The value, or why no capability has these parts.
    pub fn cap(self) -> Result<Cap, MakeFault>
        ensures { result ≡ given_value self }
    {
        match self {
            Given::Int(number) => Ok(Cap::of_int(number)),
            Given::Word(upper, addr) => Ok(Cap::from_word(
                u128::from(upper) * 0x1_0000_0000_0000_0000 + u128::from(addr),
            )),
            Given::Open(base, len, addr, bits) => made(base, len, addr, bits),
            Given::Sentry(base, len, addr, bits) => {
                let open = made(base, len, addr, bits)?;
                Ok(open.seal_entry())
            }
            Given::Sealed(base, len, addr, bits, otype) => {
                let open = made(base, len, addr, bits)?;
                let key = Cap::root(Perms::SEAL).set_addr(otype);
                Ok(open.seal(key))
            }
        }
    }
}

/// What a row finds: the tag, the upper half and the address of a value.
#[derive(Clone, Copy, Debug, PartialEq, Eq)]
pub struct Tagged(pub bool, pub u64, pub u64);

/// The tag and the word of a value.
pub fn tagged_word(cap: Cap) -> Tagged
    ensures tag { result.0 ≡ tag_of cap }
    ensures upper { result.1 ≡ bits_of cap / 2 ^ 64 }
    ensures addr { result.2 ≡ bits_of cap % 2 ^ 64 }
{
    Tagged(cap.tag(), cap.high(), cap.addr())
}
