//! Tables of checks, line by line: the first line that fails is the verdict.
#![tactic(auto, using(crate::proofs::VerdictLemmas::table_steps), unfolding(crate::proofs::Unfold::tables))]

ghost use Rattle.std.specs.Prelude.{◌≡◌, ◌+◌, ◌<◌, ◌%◌, ◌==◌, ◌&&◌, ◌∷◌, [], not};
ghost use Rattle.cap_model.specs.results.Addresses.{has_permission, in_bounds};
ghost use Rattle.cap_model.specs.values.Capability.{unsealed_type};
ghost use Rattle.cap_model.specs.values.CapValue.{CapValue, tag_of};
ghost use Rattle.cheri_model.specs.steps.Checks.{
  check_line,
  first_failing,
  has_type,
  is_global,
  is_load,
  is_store,
  is_tagged,
  size_of,
  stores_capability,
};
ghost use Rattle.cheri_model.specs.declared.trace.TheConstants.Trap as cause;
ghost use Rattle.cheri_caps.specs.Checks.{access_checks, fetch_checks, is_in_range};

use crate::structs::CheriRange;
use cap_ops::Cap;
use cheri_model::permission::{EXECUTE, GLOBAL, LOAD, STORE, STORE_CAP, STORE_LOCAL};
use cheri_model::{Access, GRANULE_BYTES, INSTRUCTION_BYTES, Trap};

/// A line of a table alone.
#[inline(always)]
pub(crate) fn check(fails: bool, cause: u8, reg: u8) -> Result<(), Trap>
    ensures { result ≡ first_failing (check_line fails cause reg ∷ []) }
{
    if fails {
        return Err(Trap { cause, reg });
    }
    Ok(())
}

/// Whether a permission is needed and missing.
#[inline(always)]
fn lacks(needed: bool, cap: Cap, number: u32) -> bool
    requires { number < 19 }
    ensures { result ≡ (needed && not (has_permission cap number)) }
{
    if needed {
        !cap.has_permission(number)
    } else {
        false
    }
}

/// The bytes that an access moves.
#[inline(always)]
fn size_of(kind: Access) -> u64
    ensures value { result ≡ size_of kind }
    ensures some { 0 < result }
{
    match kind {
        Access::Load(width) | Access::Store(width) => width.bytes(),
        Access::LoadCap | Access::StoreCap | Access::Swap => u64::from(GRANULE_BYTES),
    }
}

/// Whether an access loads.
#[inline(always)]
fn is_load(kind: Access) -> bool
    ensures { result ≡ is_load kind }
{
    matches!(&kind, Access::Load(_) | Access::LoadCap | Access::Swap)
}

/// Whether an access stores.
#[inline(always)]
fn is_store(kind: Access) -> bool
    ensures { result ≡ is_store kind }
{
    matches!(&kind, Access::Store(_) | Access::StoreCap | Access::Swap)
}

/// Whether what an access stores, as a capability, is tagged, and whether it also lacks Global.
#[inline(always)]
fn stored_kind(kind: Access, stored: Option<Cap>) -> (bool, bool)
    ensures tagged { result.0 ≡ (stores_capability kind && is_tagged stored) }
    ensures local { result.1 ≡ (stores_capability kind && is_tagged stored
        && not (is_global stored)) }
{
    match stored {
        Some(value) => {
            let tagged = matches!(&kind, Access::StoreCap | Access::Swap) && value.tag();
            (tagged, lacks(tagged, value, GLOBAL))
        }
        None => (false, false),
    }
}

/// Whether an address is not a multiple of the bytes that an access moves. By a mask, since a
/// remainder by a number that is only known in a run is a division.
#[inline(always)]
fn unaligned(addr: u64, bytes: u64) -> bool
    requires { 0 < bytes }
    ensures { result ≡ not (addr % bytes == 0) }
{
    let remainder = match bytes {
        1 => 0,
        2 => addr % 2,
        4 => addr % 4,
        8 => addr % 8,
        16 => addr % 16,
        _ => addr % bytes,
    };
    remainder != 0
}

/// Whether the bytes from `addr` on, this many, lie wholly in a range.
#[inline(always)]
fn is_in_range(range: CheriRange, addr: u64, bytes: u64) -> bool
    ensures { result ≡ is_in_range range addr bytes }
{
    range.base <= addr
        && u128::from(addr) + u128::from(bytes) <= u128::from(range.base) + u128::from(range.len)
}

/// The last check of an access: whether memory has its bytes.
#[inline(always)]
fn place_verdict(kind: Access, addr: u64, memory: CheriRange, reg: u8) -> Result<(), Trap>
    ensures { result ≡ first_failing (check_line
        (not (is_in_range memory addr (size_of kind))) cause.PLACE reg ∷ []) }
{
    check(!is_in_range(memory, addr, size_of(kind)), Trap::PLACE, reg)
}

/// The checks of an access at `addr` through the register with the number `reg`, which holds
/// `auth`, where memory is a range. `stored` counts only where the access stores a capability.
#[inline(always)]
pub(crate) fn access_verdict(
    auth: Cap,
    reg: u8,
    addr: u64,
    kind: Access,
    stored: Option<Cap>,
    memory: CheriRange,
) -> Result<(), Trap>
    ensures { result ≡ first_failing (access_checks auth reg addr kind stored memory) }
{
    let bytes = size_of(kind);
    let (tagged, local) = stored_kind(kind, stored);
    check(!auth.tag(), Trap::TAG, reg)?;
    check(auth.sealed(), Trap::SEAL, reg)?;
    check(lacks(is_load(kind), auth, LOAD), Trap::LOAD, reg)?;
    check(lacks(is_store(kind), auth, STORE), Trap::STORE, reg)?;
    check(lacks(tagged, auth, STORE_CAP), Trap::STORE_CAP, reg)?;
    check(lacks(local, auth, STORE_LOCAL), Trap::STORE_LOCAL, reg)?;
    check(!auth.holds(addr, bytes), Trap::LENGTH, reg)?;
    check(unaligned(addr, bytes), Trap::ALIGNMENT, reg)?;
    place_verdict(kind, addr, memory, reg)
}

/// The checks of a fetch at this PCC, where code is a range.
#[inline(always)]
pub(crate) fn fetch_verdict(pcc: Cap, code: CheriRange) -> Result<(), Trap>
    ensures { result ≡ first_failing (fetch_checks pcc code) }
{
    let pc = pcc.addr();
    check(!pcc.tag(), Trap::TAG, Trap::PCC)?;
    check(pcc.sealed(), Trap::SEAL, Trap::PCC)?;
    check(!pcc.has_permission(EXECUTE), Trap::EXECUTE, Trap::PCC)?;
    check(!pcc.holds(pc, INSTRUCTION_BYTES), Trap::LENGTH, Trap::PCC)?;
    check(pc % INSTRUCTION_BYTES != 0, Trap::ALIGNMENT, Trap::PCC)?;
    check(
        !is_in_range(code, pc, INSTRUCTION_BYTES),
        Trap::FETCH,
        Trap::PCC,
    )
}
