//! The check of an access to memory through a capability.
#![tactic(auto, unfolding(cheri_model::specs::steps::Checks::access_table))]

ghost use Rattle.std.specs.Prelude.{◌≡◌, ◌+◌, ◌<◌, ◌&&◌, not, OnOk, IsTrue};
ghost use Rattle.cheri_model.specs.steps.Checks.{
  access_table,
  first_failing,
  is_global,
  is_load,
  is_store,
  is_tagged,
  size_of,
  stores_capability,
};
ghost use Rattle.cheri_model.specs.steps.Memory.{fits};

use crate::checks::{
    check, first_failing, lacks, outside, sealed, unaligned, untagged, without_needed,
};
use cap_ops::Cap;
use cheri_model::permission::{GLOBAL, LOAD, STORE, STORE_CAP, STORE_LOCAL};
use cheri_model::{Access, GRANULE_BYTES, Trap};
use tagged_mem::Ram;

/// The bytes that an access moves.
fn size_of(kind: Access) -> u64
    ensures value { result ≡ size_of kind }
    ensures some { 0 < result }
{
    match kind {
        Access::Load(width) | Access::Store(width) => width.bytes(),
        Access::LoadCap | Access::StoreCap | Access::Swap => u64::from(GRANULE_BYTES),
    }
}

/// Whether an access loads.
fn is_load(kind: Access) -> bool
    ensures { result ≡ is_load kind }
{
    matches!(&kind, Access::Load(_) | Access::LoadCap | Access::Swap)
}

/// Whether an access stores.
fn is_store(kind: Access) -> bool
    ensures { result ≡ is_store kind }
{
    matches!(&kind, Access::Store(_) | Access::StoreCap | Access::Swap)
}

/// Whether an access stores a capability.
fn stores_capability(kind: Access) -> bool
    ensures { result ≡ stores_capability kind }
{
    matches!(&kind, Access::StoreCap | Access::Swap)
}

/// Whether what an access stores, as a capability, is tagged, and whether it also lacks Global.
fn stored_kind(kind: Access, stored: Option<Cap>) -> (bool, bool)
    ensures tagged { result.0 ≡ (stores_capability kind && is_tagged stored) }
    ensures local { result.1 ≡ (stores_capability kind && is_tagged stored
        && not (is_global stored)) }
{
    match stored {
        Some(value) => {
            let tagged = stores_capability(kind) && value.tag();
            (tagged, lacks(tagged, value, GLOBAL))
        }
        None => (false, false),
    }
}

/// The table of the checks of an access.
#[inline(always)]
fn table_verdict(
    auth: Cap,
    reg: u8,
    addr: u64,
    kind: Access,
    stored: Option<Cap>,
    ram: &Ram,
) -> Result<(), Trap>
    ensures { result ≡ first_failing (access_table auth reg addr kind stored ram.now) }
{
    let bytes = size_of(kind);
    let (tagged, local) = stored_kind(kind, stored);
    first_failing(&[
        untagged(auth, reg),
        sealed(auth, reg),
        without_needed(is_load(kind), auth, LOAD, Trap::LOAD, reg),
        without_needed(is_store(kind), auth, STORE, Trap::STORE, reg),
        without_needed(tagged, auth, STORE_CAP, Trap::STORE_CAP, reg),
        without_needed(local, auth, STORE_LOCAL, Trap::STORE_LOCAL, reg),
        outside(auth, addr, bytes, reg),
        unaligned(addr, bytes, reg),
        check(!ram.holds(addr, bytes), Trap::PLACE, reg),
    ])
}

/// The first check that fails of an access at `addr` through the register with the number `reg`,
/// which holds `auth`. `stored` is the capability to be stored, which counts only where the access
/// stores one. An access that passes fits the memory. Inlined, since each caller has one kind.
#[inline(always)]
pub fn access_check(
    auth: Cap,
    reg: u8,
    addr: u64,
    kind: Access,
    stored: Option<Cap>,
    ram: &Ram,
) -> Result<(), Trap>
    ensures first { result ≡ first_failing (access_table auth reg addr kind stored ram.now) }
    ensures place { OnOk result (IsTrue (fits ram.now addr (size_of kind))) }
{
    table_verdict(auth, reg, addr, kind, stored, ram)
}
