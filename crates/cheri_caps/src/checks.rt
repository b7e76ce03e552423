//! Whether an instruction may access memory, be fetched or jump: the machine's checks in their
//! order. Memory and code are ranges that the caller names.

ghost use Rattle.std.specs.Prelude.{◌≡◌, None, Some};
ghost use Rattle.cheri_model.specs.declared.access.Access.TheVariants as access;
ghost use Rattle.cheri_model.specs.steps.Checks.{first_failing, target_table};
ghost use Rattle.cheri_caps.specs.Checks.{
  access_checks,
  fetch_checks,
  invoke_checks,
  jump_checks,
  trap_of,
  width_of,
};
ghost use Rattle.cheri_caps.specs.Structs.{value_of};

use crate::jumps::{invoke_verdict, jump_verdict, target_verdict};
use crate::structs::{CheriCap, CheriRange, CheriTrap};
use crate::values::value_of;
use crate::verdicts::{access_verdict, fetch_verdict};
use cheri_model::{Access, Trap, Width};

/// What C gets of a verdict.
#[inline(always)]
fn trap_of(verdict: Result<(), Trap>) -> CheriTrap
    ensures { result ≡ trap_of verdict }
{
    match verdict {
        Ok(()) => CheriTrap { cause: 0, reg: 0 },
        Err(trap) => CheriTrap {
            cause: trap.cause,
            reg: trap.reg,
        },
    }
}

/// The width of 2^n bytes, by the lowest two bits of n.
#[inline(always)]
fn width_of(log2_bytes: u8) -> Width
    ensures { result ≡ width_of log2_bytes }
{
    match log2_bytes % 4 {
        0 => Width::Byte,
        1 => Width::Half,
        2 => Width::Word,
        _ => Width::Double,
    }
}

/// The first check that fails of a load of 1, 2, 4 or 8 bytes at `addr` through `auth`, which is in
/// the register with the number `reg`.
#[unsafe(no_mangle)]
pub extern "C" fn cheri_caps_check_load(
    auth: CheriCap,
    reg: u8,
    addr: u64,
    log2_bytes: u8,
    memory: CheriRange,
) -> CheriTrap
    ensures { result ≡ trap_of (first_failing (access_checks (value_of auth) reg addr
        (access.Load (width_of log2_bytes)) None memory)) }
{
    let kind = Access::Load(width_of(log2_bytes));
    trap_of(access_verdict(value_of(auth), reg, addr, kind, None, memory))
}

/// The first check that fails of a store of 1, 2, 4 or 8 bytes.
#[unsafe(no_mangle)]
pub extern "C" fn cheri_caps_check_store(
    auth: CheriCap,
    reg: u8,
    addr: u64,
    log2_bytes: u8,
    memory: CheriRange,
) -> CheriTrap
    ensures { result ≡ trap_of (first_failing (access_checks (value_of auth) reg addr
        (access.Store (width_of log2_bytes)) None memory)) }
{
    let kind = Access::Store(width_of(log2_bytes));
    trap_of(access_verdict(value_of(auth), reg, addr, kind, None, memory))
}

/// The first check that fails of a load of a capability.
#[unsafe(no_mangle)]
pub extern "C" fn cheri_caps_check_load_cap(
    auth: CheriCap,
    reg: u8,
    addr: u64,
    memory: CheriRange,
) -> CheriTrap
    ensures { result ≡ trap_of (first_failing (access_checks (value_of auth) reg addr
        access.LoadCap None memory)) }
{
    trap_of(access_verdict(value_of(auth), reg, addr, Access::LoadCap, None, memory))
}

/// The first check that fails of a store of this capability.
#[unsafe(no_mangle)]
pub extern "C" fn cheri_caps_check_store_cap(
    auth: CheriCap,
    reg: u8,
    addr: u64,
    stored: CheriCap,
    memory: CheriRange,
) -> CheriTrap
    ensures { result ≡ trap_of (first_failing (access_checks (value_of auth) reg addr
        access.StoreCap (Some (value_of stored)) memory)) }
{
    let stored = Some(value_of(stored));
    trap_of(access_verdict(value_of(auth), reg, addr, Access::StoreCap, stored, memory))
}

/// The first check that fails of a swap with this capability: a load and a store in one.
#[unsafe(no_mangle)]
pub extern "C" fn cheri_caps_check_swap(
    auth: CheriCap,
    reg: u8,
    addr: u64,
    stored: CheriCap,
    memory: CheriRange,
) -> CheriTrap
    ensures { result ≡ trap_of (first_failing (access_checks (value_of auth) reg addr
        access.Swap (Some (value_of stored)) memory)) }
{
    let stored = Some(value_of(stored));
    trap_of(access_verdict(value_of(auth), reg, addr, Access::Swap, stored, memory))
}

/// The first check that fails of a fetch at PCC's address.
#[unsafe(no_mangle)]
pub extern "C" fn cheri_caps_check_fetch(pcc: CheriCap, code: CheriRange) -> CheriTrap
    ensures { result ≡ trap_of (first_failing (fetch_checks (value_of pcc) code)) }
{
    trap_of(fetch_verdict(value_of(pcc), code))
}

/// The check of a taken branch and of CJAL: whether PCC has the four bytes at the target in its
/// bounds.
#[unsafe(no_mangle)]
pub extern "C" fn cheri_caps_check_branch(pcc: CheriCap, target: u64) -> CheriTrap
    ensures { result ≡ trap_of (first_failing (target_table (value_of pcc) target)) }
{
    trap_of(target_verdict(value_of(pcc), target))
}

/// The first check that fails of a jump through the register with the number `reg`, by an offset
/// (CJALR).
#[unsafe(no_mangle)]
pub extern "C" fn cheri_caps_check_jump(through: CheriCap, reg: u8, offset: u64) -> CheriTrap
    ensures { result ≡ trap_of (first_failing (jump_checks (value_of through) reg offset)) }
{
    trap_of(jump_verdict(value_of(through), reg, offset))
}

/// The first check that fails of a jump through a sealed pair of code and data, which are in the
/// registers with the numbers `c1` and `c2` (CInvoke).
#[unsafe(no_mangle)]
pub extern "C" fn cheri_caps_check_invoke(
    code: CheriCap,
    c1: u8,
    pair: CheriCap,
    c2: u8,
) -> CheriTrap
    ensures { result ≡ trap_of (first_failing (invoke_checks (value_of code) c1
        (value_of pair) c2)) }
{
    trap_of(invoke_verdict(value_of(code), c1, value_of(pair), c2))
}
