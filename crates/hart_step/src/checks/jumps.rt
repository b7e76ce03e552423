//! The checks of jumps. A jump that passes its check has four bytes at its target in the bounds of
//! what becomes PCC.
#![tactic(auto, unfolding(crate::proofs::Unfold::jump_checks))]

ghost use Rattle.std.specs.Prelude.{◌≡◌, ◌&&◌, ◌||◌, not, OnOk, true};
ghost use Rattle.cap_model.specs.values.Capability.{unsealed_type, sentry_type};
ghost use Rattle.cap_model.specs.values.CapValue.{parts_of, tag_of};
ghost use Rattle.cheri_model.specs.steps.Checks.{
  check_line,
  first_failing,
  has_type,
  invoke_table,
  jump_table,
  target_table,
};
ghost use Rattle.cap_model.specs.results.Addresses.{has_permission, in_bounds};
ghost use Rattle.cap_model.specs.results.Seals.{is_sealable};

use crate::checks::{Line, check, first_failing, outside, unaligned, untagged, without};
use cap_ops::Cap;
use cheri_model::permission::{CINVOKE, EXECUTE};
use cheri_model::{INSTRUCTION_BYTES, LAST_SEALABLE_TYPE, SENTRY_TYPE, Trap, UNSEALED_TYPE};

fn target_verdict(pcc: Cap, target: u64) -> Result<(), Trap>
    ensures { result ≡ first_failing (target_table pcc target) }
{
    first_failing(&[outside(pcc, target, INSTRUCTION_BYTES, Trap::PCC)])
}

/// A taken branch and CJAL.
pub fn target_check(pcc: Cap, target: u64) -> Result<(), Trap>
    ensures first { result ≡ first_failing (target_table pcc target) }
    ensures within { OnOk result (in_bounds pcc target 4 ≡ true) }
{
    target_verdict(pcc, target)
}

/// Whether a jump may go through a capability with this type: unsealed, or a sentry where it points
/// alone.
fn may_enter(through: Cap, is_entry: bool) -> bool
    ensures { result
        ≡ (has_type through unsealed_type || (has_type through sentry_type && is_entry)) }
{
    let number = through.object_type().number();
    number == UNSEALED_TYPE || (number == SENTRY_TYPE && is_entry)
}

fn jump_verdict(through: Cap, reg: u8, is_entry: bool, target: u64) -> Result<(), Trap>
    ensures { result ≡ first_failing (jump_table through reg is_entry target) }
{
    first_failing(&[
        untagged(through, reg),
        check(!may_enter(through, is_entry), Trap::SEAL, reg),
        without(through, EXECUTE, Trap::EXECUTE, reg),
        outside(through, target, INSTRUCTION_BYTES, reg),
        unaligned(target, INSTRUCTION_BYTES, reg),
    ])
}

/// CJALR through the register with the number `reg`, with no offset where `is_entry`.
pub fn jump_check(through: Cap, reg: u8, is_entry: bool, target: u64) -> Result<(), Trap>
    ensures first { result ≡ first_failing (jump_table through reg is_entry target) }
    ensures tag { OnOk result (tag_of through ≡ true) }
    ensures within { OnOk result (in_bounds through target 4 ≡ true) }
{
    jump_verdict(through, reg, is_entry, target)
}

/// The line that fails where a capability has no object type that CSeal can give.
fn unsealable(cap: Cap, reg: u8) -> Line
    ensures { result ≡ check_line (not (is_sealable (parts_of cap).otype)) Trap.SEAL reg }
{
    let otype = cap.object_type().number();
    check(otype > LAST_SEALABLE_TYPE, Trap::SEAL, reg)
}

/// The line that fails where two capabilities have different object types.
fn other_type(code: Cap, data_cap: Cap, reg: u8) -> Line
    ensures { result ≡ check_line (not (has_type code (parts_of data_cap).otype)) Trap.TYPE reg }
{
    let types = (code.object_type().number(), data_cap.object_type().number());
    check(types.0 != types.1, Trap::TYPE, reg)
}

/// The line that fails where a capability has Execute.
fn executable(cap: Cap, reg: u8) -> Line
    ensures { result ≡ check_line (has_permission cap EXECUTE) Trap.EXECUTE reg }
{
    check(cap.has_permission(EXECUTE), Trap::EXECUTE, reg)
}

fn invoke_verdict(code: Cap, c1: u8, data_cap: Cap, c2: u8, target: u64) -> Result<(), Trap>
    ensures { result ≡ first_failing (invoke_table code c1 data_cap c2 target) }
{
    first_failing(&[
        untagged(code, c1),
        untagged(data_cap, c2),
        unsealable(code, c1),
        unsealable(data_cap, c2),
        other_type(code, data_cap, c1),
        without(code, CINVOKE, Trap::CINVOKE, c1),
        without(data_cap, CINVOKE, Trap::CINVOKE, c2),
        without(code, EXECUTE, Trap::EXECUTE, c1),
        executable(data_cap, c2),
        outside(code, target, INSTRUCTION_BYTES, c1),
        unaligned(target, INSTRUCTION_BYTES, c1),
    ])
}

/// CInvoke of the code and the data in the registers with the numbers `c1` and `c2`.
pub fn invoke_check(code: Cap, c1: u8, data_cap: Cap, c2: u8, target: u64) -> Result<(), Trap>
    ensures first { result ≡ first_failing (invoke_table code c1 data_cap c2 target) }
    ensures tag { OnOk result (tag_of code ≡ true) }
    ensures within { OnOk result (in_bounds code target 4 ≡ true) }
{
    invoke_verdict(code, c1, data_cap, c2, target)
}
