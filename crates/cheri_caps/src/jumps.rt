//! The checks of jumps, and what a jump leaves.
#![tactic(auto, using(crate::proofs::VerdictLemmas::table_steps), unfolding(crate::proofs::Unfold::jumping))]

ghost use Rattle.std.specs.Prelude.{◌≡◌, ◌+◌, ◌/◌, ◌*◌, ◌%◌, ◌^◌, ◌==◌, ◌&&◌, ◌||◌, not, drop};
ghost use Rattle.cap_model.specs.results.Seals.{is_sealable};
ghost use Rattle.cap_model.specs.values.CapValue.{parts_of};
ghost use Rattle.cap_model.specs.values.Capability.{sentry_type, unsealed_type};
ghost use Rattle.cheri_model.specs.steps.Checks.{first_failing, has_type, target_table};
ghost use Rattle.cheri_caps.specs.Checks.{
  invoke_answer,
  invoke_checks,
  jump_answer,
  jump_checks,
  jumped,
  link_of,
  not_jumped,
  target_at,
};
ghost use Rattle.cheri_caps.specs.Structs.{value_of};

use crate::structs::{CheriCap, CheriJumped, CheriTrap};
use crate::values::{struct_of, value_of};
use crate::verdicts::check;
use cap_ops::Cap;
use cheri_model::permission::{CINVOKE, EXECUTE};
use cheri_model::{INSTRUCTION_BYTES, LAST_SEALABLE_TYPE, SENTRY_TYPE, Trap, UNSEALED_TYPE};

/// The target of a jump by an offset, which has bit 0 cleared.
#[inline(always)]
fn target_at(value: Cap, offset: u64) -> u64
    ensures { result ≡ target_at value offset }
{
    value.addr().wrapping_add(offset) / 2 * 2
}

/// The check of a taken branch.
#[inline(always)]
pub(crate) fn target_verdict(pcc: Cap, target: u64) -> Result<(), Trap>
    ensures { result ≡ first_failing (target_table pcc target) }
{
    check(
        !pcc.holds(target, INSTRUCTION_BYTES),
        Trap::LENGTH,
        Trap::PCC,
    )
}

/// Whether a jump may go through a capability of this type: unsealed, or a sentry where it points
/// alone.
#[inline(always)]
fn may_enter(through: Cap, is_entry: bool) -> bool
    ensures { result
        ≡ (has_type through unsealed_type || (has_type through sentry_type && is_entry)) }
{
    let number = through.object_type().number();
    number == UNSEALED_TYPE || (number == SENTRY_TYPE && is_entry)
}

/// The checks of a jump through a register, by an offset.
#[inline(always)]
pub(crate) fn jump_verdict(through: Cap, reg: u8, offset: u64) -> Result<(), Trap>
    ensures { result ≡ first_failing (jump_checks through reg offset) }
{
    let target = target_at(through, offset);
    let entered = may_enter(through, offset == 0);
    check(!through.tag(), Trap::TAG, reg)?;
    check(!entered, Trap::SEAL, reg)?;
    check(!through.has_permission(EXECUTE), Trap::EXECUTE, reg)?;
    check(!through.holds(target, INSTRUCTION_BYTES), Trap::LENGTH, reg)?;
    check(target % INSTRUCTION_BYTES != 0, Trap::ALIGNMENT, reg)
}

/// Whether a capability has no object type that CSeal can give.
#[inline(always)]
fn unsealable(cap: Cap) -> bool
    ensures { result ≡ not (is_sealable (parts_of cap).otype) }
{
    cap.object_type().number() > LAST_SEALABLE_TYPE
}

/// Whether two capabilities have different object types.
#[inline(always)]
fn have_other_types(code: Cap, pair: Cap) -> bool
    ensures { result ≡ not (has_type code (parts_of pair).otype) }
{
    let types = (code.object_type().number(), pair.object_type().number());
    types.0 != types.1
}

/// The checks of a jump through a sealed pair, once both are known to be sealed alike.
#[inline(always)]
fn pair_verdict(code: Cap, c1: u8, pair: Cap, c2: u8) -> Result<(), Trap>
    ensures { result ≡ first_failing (drop 5 (invoke_checks code c1 pair c2)) }
{
    let target = target_at(code, 0);
    check(!code.has_permission(CINVOKE), Trap::CINVOKE, c1)?;
    check(!pair.has_permission(CINVOKE), Trap::CINVOKE, c2)?;
    check(!code.has_permission(EXECUTE), Trap::EXECUTE, c1)?;
    check(pair.has_permission(EXECUTE), Trap::EXECUTE, c2)?;
    check(!code.holds(target, INSTRUCTION_BYTES), Trap::LENGTH, c1)?;
    check(target % INSTRUCTION_BYTES != 0, Trap::ALIGNMENT, c1)
}

/// The checks of a jump through a sealed pair.
#[inline(always)]
pub(crate) fn invoke_verdict(code: Cap, c1: u8, pair: Cap, c2: u8) -> Result<(), Trap>
    ensures { result ≡ first_failing (invoke_checks code c1 pair c2) }
{
    check(!code.tag(), Trap::TAG, c1)?;
    check(!pair.tag(), Trap::TAG, c2)?;
    check(unsealable(code), Trap::SEAL, c1)?;
    check(unsealable(pair), Trap::SEAL, c2)?;
    check(have_other_types(code, pair), Trap::TYPE, c1)?;
    pair_verdict(code, c1, pair, c2)
}

/// What jumps leave to come back by: the next instruction's address, sealed as a sentry.
#[inline(always)]
fn link_of(pcc: Cap) -> Cap
    ensures { result ≡ link_of pcc }
{
    pcc.inc_offset(INSTRUCTION_BYTES).seal_entry()
}

/// A jump to a target through a capability, which leaves another value.
#[inline(always)]
fn jumped(through: Cap, target: u64, left: Cap) -> CheriJumped
    ensures { result ≡ jumped through target left }
{
    CheriJumped {
        pcc: struct_of(through.unsealed().set_addr(target)),
        left: struct_of(left),
        trap: CheriTrap { cause: 0, reg: 0 },
    }
}

/// Null twice, where a check fails.
#[inline(always)]
fn not_jumped(trap: Trap) -> CheriJumped
    ensures { result ≡ not_jumped trap }
{
    CheriJumped {
        pcc: struct_of(Cap::null()),
        left: struct_of(Cap::null()),
        trap: CheriTrap {
            cause: trap.cause,
            reg: trap.reg,
        },
    }
}

/// A jump at this PCC through the register with the number `reg`, by an offset (CJALR). It leaves
/// the next instruction's address, sealed as a sentry.
#[unsafe(no_mangle)]
pub extern "C" fn cheri_caps_jump(
    pcc: CheriCap,
    through: CheriCap,
    reg: u8,
    offset: u64,
) -> CheriJumped
    ensures { result ≡ jump_answer (first_failing (jump_checks (value_of through) reg offset))
        (value_of pcc) (value_of through) offset }
{
    let through = value_of(through);
    match jump_verdict(through, reg, offset) {
        Ok(()) => jumped(through, target_at(through, offset), link_of(value_of(pcc))),
        Err(trap) => not_jumped(trap),
    }
}

/// A jump through a sealed pair of code and data, which are in the registers with the numbers `c1`
/// and `c2` (CInvoke). It leaves the unsealed data, in c31.
#[unsafe(no_mangle)]
pub extern "C" fn cheri_caps_invoke(code: CheriCap, c1: u8, pair: CheriCap, c2: u8) -> CheriJumped
    ensures { result ≡ invoke_answer (first_failing (invoke_checks (value_of code) c1
        (value_of pair) c2)) (value_of code) (value_of pair) }
{
    let (code, pair) = (value_of(code), value_of(pair));
    match invoke_verdict(code, c1, pair, c2) {
        Ok(()) => jumped(code, target_at(code, 0), pair.unsealed()),
        Err(trap) => not_jumped(trap),
    }
}
