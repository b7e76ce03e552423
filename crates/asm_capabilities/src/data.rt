//! The capabilities of symbols in memory and of the capability table.
#![tactic(auto, unfolding(crate::proofs::Unfold::data_parts))]

ghost use Rattle.std.specs.Prelude.{◌≡◌};
ghost use Rattle.asm_capabilities.specs.Capabilities.{
  kind_permissions,
  data_at,
  table_length,
  table_of,
};

use crate::permissions::{READ_ONLY, WRITABLE};
use bitflags::Flags;
use cap_bounds::crrl;
use cap_model::Perms;
use cap_ops::{Cap, MakeFault};
use cheri_model::{GRANULE_BYTES, RAM_BASE};

/// What may be done to the bytes of a symbol.
#[derive(Clone, Copy)]
pub enum DataKind {
    /// They may be read.
    ReadOnly,
    /// They may be read and written.
    Writable,
}

impl DataKind {
    /// The permissions.
    fn permissions(self) -> u32
        ensures { result ≡ kind_permissions self }
    {
        match self {
            DataKind::ReadOnly => READ_ONLY,
            DataKind::Writable => WRITABLE,
        }
    }
}

/// The capability of a symbol's bytes, at an address. Fails where there is none with just these
/// bounds: it is never widened over its neighbours.
pub fn data_capability(kind: DataKind, base: u64, length: u64, addr: u64) -> Result<Cap, MakeFault>
    ensures { result ≡ data_at kind base length addr }
{
    let perms = Perms::from_bits_retain(kind.permissions());
    Cap::make(base, u128::from(length), addr, perms)
}

/// The bytes of a capability table of so many entries, with what rounding adds.
pub fn table_length(entries: u32) -> u64
    ensures { result ≡ table_length entries }
{
    crrl(u64::from(GRANULE_BYTES) * u64::from(entries))
}

/// The capability of the table, which is at the beginning of memory. Fails where there is none.
pub fn table_capability(entries: u32) -> Result<Cap, MakeFault>
    ensures { result ≡ table_of entries }
{
    let length = u128::from(table_length(entries));
    Cap::make(
        RAM_BASE,
        length,
        RAM_BASE,
        Perms::from_bits_retain(READ_ONLY),
    )
}
