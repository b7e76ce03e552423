//! Which places an instruction reads and sets, and which bytes it accesses.
#![tactic(auto, unfolding(crate::proofs::Unfold::names))]

ghost use Rattle.std.specs.Prelude.{◌≡◌, ℕ, ◌+◌, ◌^◌, ◌<◌};
ghost use Rattle.cheri_model.specs.steps.Memory.{ram_base};
ghost use Rattle.instructions.specs.Actions.{action_of};
ghost use Rattle.origins.specs.Flows.{granule_of, IsSpot};
ghost use Rattle.facts.specs.Names.{
  EachIs,
  both,
  load_reads,
  reads_of,
  access_of,
  is_store,
  result_in,
  result_and_pcc,
  sets_of,
};

use crate::operands::register;
use crate::step_facts::{Extent, UpToTwo};
use cheri_model::form::{Form, LoadOp, UpperOp};
use cheri_model::{GRANULE_BYTES, RAM_BASE, Reg};
use instructions::Action;
use origins::Spot;

/// The register that CInvoke leaves the data in.
const INVOKED_DATA: u8 = 31;

/// Two registers in this order, each once.
fn both(first: Reg, second: Reg) -> UpToTwo<Spot>
    ensures value { result ≡ both first second }
    ensures spots { (count : ℕ) → EachIs (IsSpot count) result }
{
    if first.number() == second.number() {
        UpToTwo::One(register(first))
    } else {
        UpToTwo::Two(register(first), register(second))
    }
}

/// What a load reads, and CJALR, which has a load's operands.
fn load_reads(op: LoadOp, c1: Reg) -> UpToTwo<Spot>
    ensures value { result ≡ load_reads op c1 }
    ensures spots { (count : ℕ) → EachIs (IsSpot count) result }
{
    match op {
        LoadOp::CJalr => UpToTwo::Two(Spot::Pcc, register(c1)),
        LoadOp::Lb
        | LoadOp::Lbu
        | LoadOp::Lh
        | LoadOp::Lhu
        | LoadOp::Lw
        | LoadOp::Lwu
        | LoadOp::Ld
        | LoadOp::Lc => UpToTwo::One(register(c1)),
    }
}

/// What an instruction of this form reads: PCC for AUIPCC, CJAL and CJALR, then the source
/// registers in the order of the operands, each once.
pub fn reads_of(form: &Form) -> UpToTwo<Spot>
    ensures value { result ≡ reads_of form.now }
    ensures spots { (count : ℕ) → EachIs (IsSpot count) result }
{
    match *form {
        Form::Three(_, _, c1, c2) | Form::Branch(_, c1, c2, _) | Form::Invoke(c1, c2) => {
            both(c1, c2)
        }
        Form::Two(_, _, c1)
        | Form::Immediate(_, _, c1, _)
        | Form::Shift(_, _, c1, _)
        | Form::WordShift(_, _, c1, _)
        | Form::SetBoundsImm(_, c1, _) => UpToTwo::One(register(c1)),
        Form::Upper(UpperOp::Lui, _, _) | Form::Alone => UpToTwo::Zero,
        Form::Upper(UpperOp::AuiPcc, _, _) | Form::Jump(_, _) => UpToTwo::One(Spot::Pcc),
        Form::Load(op, _, c1, _) => load_reads(op, c1),
        Form::Store(_, c2, c1, _) | Form::Swap(_, c2, c1) => both(c2, c1),
    }
}

/// The bytes that an action accesses in memory.
pub fn access_of(action: &Action) -> Option<Extent>
    ensures { result ≡ access_of (action_of action.now) }
{
    match *action {
        Action::Load { addr, width, .. } | Action::Store { addr, width, .. } => Some(Extent {
            address: addr,
            bytes: width.bytes(),
        }),
        Action::LoadCap { addr, .. } | Action::StoreCap { addr, .. } | Action::Swap { addr, .. } =>
            Some(Extent {
                address: addr,
                bytes: u64::from(GRANULE_BYTES),
            }),
        Action::Put { .. }
        | Action::Branch { .. }
        | Action::Jump { .. }
        | Action::JumpThrough { .. }
        | Action::Invoke { .. }
        | Action::Halt => None,
    }
}

/// The granule that a byte of RAM lies in.
pub fn granule_at(address: u64) -> Spot
    requires { address < ram_base + 2 ^ 20 }
    ensures { result ≡ granule_of address }
{
    Spot::Granule((address.saturating_sub(RAM_BASE) / u64::from(GRANULE_BYTES)) as u32)
}

/// Whether an action stores.
pub fn is_store(action: &Action) -> bool
    ensures { result ≡ is_store (action_of action.now) }
{
    matches!(
        *action,
        Action::Store { .. } | Action::StoreCap { .. } | Action::Swap { .. }
    )
}

/// A result in `cd`; a write to c0 sets nothing.
fn result_in(cd: Reg) -> UpToTwo<Spot>
    ensures value { result ≡ result_in cd }
    ensures spots { (count : ℕ) → EachIs (IsSpot count) result }
{
    if cd.number() == 0 {
        UpToTwo::Zero
    } else {
        UpToTwo::One(register(cd))
    }
}

/// The same, and PCC after it.
fn result_and_pcc(cd: Reg) -> UpToTwo<Spot>
    ensures value { result ≡ result_and_pcc cd }
    ensures spots { (count : ℕ) → EachIs (IsSpot count) result }
{
    if cd.number() == 0 {
        UpToTwo::One(Spot::Pcc)
    } else {
        UpToTwo::Two(register(cd), Spot::Pcc)
    }
}

/// What an action which is done sets, besides memory and the advance of PCC.
pub fn sets_of(action: &Action) -> UpToTwo<Spot>
    ensures value { result ≡ sets_of (action_of action.now) }
    ensures spots { (count : ℕ) → EachIs (IsSpot count) result }
{
    match *action {
        Action::Put { cd, .. }
        | Action::Load { cd, .. }
        | Action::LoadCap { cd, .. }
        | Action::Swap { cd, .. } => result_in(cd),
        Action::Branch { taken: true, .. } => UpToTwo::One(Spot::Pcc),
        Action::Jump { cd, .. } | Action::JumpThrough { cd, .. } => result_and_pcc(cd),
        Action::Invoke { .. } => UpToTwo::Two(Spot::Register(INVOKED_DATA), Spot::Pcc),
        Action::Store { .. } | Action::StoreCap { .. } | Action::Branch { .. } | Action::Halt => {
            UpToTwo::Zero
        }
    }
}
