//! Why a step trapped, by the trap's cause.
#![tactic(auto, unfolding(crate::proofs::Unfold::traps))]

ghost use Rattle.std.specs.Prelude.{◌≡◌};
ghost use Rattle.instructions.specs.Actions.{action_of};
ghost use Rattle.facts.specs.Traps.{
  name_of,
  named_by,
  checked_by,
  checked_bytes,
  stored_by,
  is_invoke,
  types_differ,
  not_invocable,
  execute_why,
  outside,
  access_why,
  trap_why,
};

use crate::names::access_of;
use crate::operands::register;
use crate::step_facts::Extent;
use crate::why::TrapWhy;
use cap_ops::Cap;
use cheri_model::permission::{CINVOKE, EXECUTE, LOAD, STORE};
use cheri_model::{INSTRUCTION_BYTES, Instr, OType, Reg, Trap};
use hart::Hart;
use instructions::{Action, instr_action};
use origins::Spot;

/// The register that a trap names.
fn name_of(reg: u8) -> Spot
    ensures { result ≡ name_of reg }
{
    if reg == Trap::PCC {
        Spot::Pcc
    } else {
        Spot::Register(reg)
    }
}

/// What is in the register that a trap names; null where there is no such register.
fn named_by(hart: &Hart, reg: u8) -> Cap
    ensures { result ≡ named_by hart.now reg }
{
    if reg == Trap::PCC {
        return hart.pcc();
    }
    if reg < 32 {
        return hart.register(Reg::new(reg));
    }
    Cap::null()
}

/// Four bytes: the instruction at an address.
fn instruction_bytes(address: u64) -> Extent
    ensures { result ≡ record { address = address; bytes = 4 } }
{
    Extent {
        address,
        bytes: INSTRUCTION_BYTES,
    }
}

/// The bytes that an action's checks are about.
fn checked_by(action: &Action) -> Extent
    ensures { result ≡ checked_by (action_of action.now) }
{
    match *action {
        Action::Branch { target, .. }
        | Action::Jump { target, .. }
        | Action::JumpThrough { target, .. }
        | Action::Invoke { target, .. } => instruction_bytes(target),
        Action::Load { .. }
        | Action::Store { .. }
        | Action::LoadCap { .. }
        | Action::StoreCap { .. }
        | Action::Swap { .. }
        | Action::Put { .. }
        | Action::Halt => access_of(action).unwrap_or(Extent {
            address: 0,
            bytes: 0,
        }),
    }
}

/// The bytes that a step's checks are about.
fn checked_bytes(fetched: &Option<Instr>, hart: &Hart) -> Extent
    ensures { result ≡ checked_bytes fetched.now hart.now }
{
    match *fetched {
        None => instruction_bytes(hart.pcc().addr()),
        Some(instr) => checked_by(&instr_action(instr, hart)),
    }
}

/// The register whose capability an instruction stores.
fn stored_by(fetched: &Option<Instr>) -> Spot
    ensures { result ≡ stored_by fetched.now }
{
    match *fetched {
        Some(Instr::Sc { c2, .. }) | Some(Instr::AmoSwapC { c2, .. }) => register(c2),
        _ => Spot::Register(0),
    }
}

/// Whether an instruction invokes a sealed pair.
fn is_invoke(fetched: &Option<Instr>) -> bool
    ensures { result ≡ is_invoke fetched.now }
{
    matches!(*fetched, Some(Instr::CInvoke { .. }))
}

/// The object types of an invoked pair.
fn types_differ(fetched: &Option<Instr>, hart: &Hart) -> TrapWhy
    ensures { result ≡ types_differ fetched.now hart.now }
{
    match *fetched {
        Some(Instr::CInvoke { c1, c2 }) => TrapWhy::TypesDiffer {
            code: hart.register(c1).object_type(),
            data: hart.register(c2).object_type(),
        },
        _ => TrapWhy::TypesDiffer {
            code: OType::new(0),
            data: OType::new(0),
        },
    }
}

/// A seal where there may be none, or none where there must be one.
fn seal_why(invoked: bool, name: Spot, value: Cap) -> TrapWhy
    ensures { result ≡ not_invocable invoked name value }
{
    if invoked {
        return TrapWhy::NotInvocable { name };
    }
    TrapWhy::Sealed {
        name,
        otype: value.object_type(),
    }
}

/// Execute where it may not be, or no Execute where it must be.
fn execute_why(name: Spot, value: Cap) -> TrapWhy
    ensures { result ≡ execute_why name value }
{
    if value.has_permission(EXECUTE) {
        return TrapWhy::HasExecute { name };
    }
    TrapWhy::Lacks {
        name,
        permission: EXECUTE,
    }
}

/// Bytes that are not in a value's bounds.
fn outside(extent: Extent, name: Spot, value: Cap) -> TrapWhy
    ensures { result ≡ outside extent name value }
{
    let (base, top) = value.bounds();
    TrapWhy::Outside {
        bytes: extent.bytes,
        address: extent.address,
        base,
        top,
        name,
    }
}

/// The causes that an access alone has, and those of an invoked pair.
fn access_why(cause: u8, name: Spot, stored: Spot, extent: Extent, otherwise: TrapWhy) -> TrapWhy
    ensures { result ≡ access_why cause name stored extent otherwise }
{
    let lacks = |permission| TrapWhy::Lacks { name, permission };
    match cause {
        Trap::LOAD => lacks(LOAD),
        Trap::STORE => lacks(STORE),
        Trap::STORE_CAP => TrapWhy::LacksStoreCap { name, stored },
        Trap::STORE_LOCAL => TrapWhy::LacksStoreLocal { name, stored },
        Trap::PLACE => TrapWhy::NotInRam {
            bytes: extent.bytes,
            address: extent.address,
        },
        Trap::CINVOKE => lacks(CINVOKE),
        _ => otherwise,
    }
}

/// Why a step of this hart trapped so, in its fetch or in the instruction that was fetched.
pub fn trap_why(fetched: &Option<Instr>, hart: &Hart, trap: Trap) -> TrapWhy
    ensures { result ≡ trap_why fetched.now hart.now trap }
{
    let name = name_of(trap.reg);
    let value = named_by(hart, trap.reg);
    let extent = checked_bytes(fetched, hart);
    match trap.cause {
        Trap::TAG => TrapWhy::Untagged { name },
        Trap::SEAL => seal_why(is_invoke(fetched), name, value),
        Trap::EXECUTE => execute_why(name, value),
        Trap::LENGTH => outside(extent, name, value),
        Trap::ALIGNMENT => TrapWhy::Misaligned {
            address: extent.address,
            bytes: extent.bytes,
        },
        Trap::FETCH => TrapWhy::NoInstruction {
            address: extent.address,
        },
        cause => access_why(
            cause,
            name,
            stored_by(fetched),
            extent,
            types_differ(fetched, hart),
        ),
    }
}
