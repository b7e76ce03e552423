//! The flows of an instruction.
#![tactic(auto, unfolding(crate::specs::Flows::flows_at))]

ghost use Rattle.std.specs.Prelude.{◌≡◌, ℕ, ◌+◌, ◌^◌, ◌<◌, ◌∷◌};
ghost use Rattle.cheri_model.specs.steps.Memory.{ram_base, granule_number};
ghost use Rattle.origins.specs.declared.place.Spot.TheVariants.{Pcc, Register};
ghost use Rattle.origins.specs.Flows.{flow, into, flows_at, granule_of, IsSpot, AreSpots};
ghost use Rattle.origins.specs.Table.{list_of};

use crate::place::{Flow, Spot};
use cheri_model::{GRANULE_BYTES, Instr, RAM_BASE, Reg};

/// What a step sets: at most two places, the first of which counts where they are the same.
#[derive(Clone, Copy, Debug, PartialEq, Eq)]
pub enum StepFlows {
    /// Nothing that can be tagged.
    Nothing,
    /// One place.
    One(Flow),
    /// Two places, both from what was there before the step.
    Two(Flow, Flow),
}

/// The granule that the byte at `address` is in.
fn granule(address: u64) -> Spot
    requires { address < ram_base + 2 ^ 20 }
    ensures value { result ≡ granule_of address }
    ensures spot { (count : ℕ) → granule_number address < count → IsSpot count result }
{
    Spot::Granule((address.saturating_sub(RAM_BASE) / u64::from(GRANULE_BYTES)) as u32)
}

/// A result in `cd` that comes from `source`; a write to c0 is dropped.
fn into(cd: Reg, source: Spot) -> StepFlows
    ensures value { list_of result ≡ into cd source }
    ensures spots { (count : ℕ) → IsSpot count source → AreSpots count (list_of result) }
{
    let number = cd.number();
    if number == 0 {
        return StepFlows::Nothing;
    }
    StepFlows::One(Flow {
        set: Spot::Register(number),
        source,
    })
}

/// The granule at `address`, set to what is in `stored`.
fn stored(address: u64, stored: Reg) -> Flow
    requires { address < ram_base + 2 ^ 20 }
    ensures value { result ≡ flow (granule_of address) (Register stored) }
    ensures set { (count : ℕ) → granule_number address < count → IsSpot count result.set }
    ensures source { (count : ℕ) → IsSpot count result.source }
{
    Flow {
        set: granule(address),
        source: Spot::Register(stored.number()),
    }
}

/// PCC, set by a jump through a register.
fn jumped_to(through: Reg) -> Flow
    ensures value { result ≡ flow Pcc (Register through) }
    ensures set { (count : ℕ) → IsSpot count result.set }
    ensures source { (count : ℕ) → IsSpot count result.source }
{
    Flow {
        set: Spot::Pcc,
        source: Spot::Register(through.number()),
    }
}

/// A flow, and a result in `cd` that comes from `source`.
fn and_into(first: Flow, cd: Reg, source: Spot) -> StepFlows
    ensures value { list_of result ≡ first ∷ into cd source }
    ensures spots { (count : ℕ) → IsSpot count first.set → IsSpot count first.source →
        IsSpot count source → AreSpots count (list_of result) }
{
    let number = cd.number();
    if number == 0 {
        return StepFlows::One(first);
    }
    StepFlows::Two(
        first,
        Flow {
            set: Spot::Register(number),
            source,
        },
    )
}

/// What an instruction that is done sets, and where from (CHERI ISA v9, "provenance"). Its access
/// of memory, if it has one, is at `address`. All are places of a machine whose memory has the
/// granule there.
pub fn flows(instr: &Instr, address: u64) -> StepFlows
    requires { address < ram_base + 2 ^ 20 }
    ensures value { list_of result ≡ flows_at instr.now address }
    ensures spots { (count : ℕ) → granule_number address < count →
        AreSpots count (list_of result) }
{
    match *instr {
        Instr::CMove { cd, c1 }
        | Instr::CClearTag { cd, c1 }
        | Instr::CSealEntry { cd, c1 }
        | Instr::CSetAddr { cd, c1, .. }
        | Instr::CIncOffset { cd, c1, .. }
        | Instr::CIncOffsetImm { cd, c1, .. }
        | Instr::CSetBounds { cd, c1, .. }
        | Instr::CSetBoundsImm { cd, c1, .. }
        | Instr::CSetBoundsExact { cd, c1, .. }
        | Instr::CAndPerm { cd, c1, .. }
        | Instr::CSetFlags { cd, c1, .. }
        | Instr::CSetHigh { cd, c1, .. }
        | Instr::CSeal { cd, c1, .. }
        | Instr::CUnseal { cd, c1, .. }
        | Instr::CBuildCap { cd, c1, .. } => into(cd, Spot::Register(c1.number())),
        Instr::AuiPcc { cd, .. } | Instr::CJal { cd, .. } => into(cd, Spot::Pcc),
        Instr::Lc { cd, .. } => into(cd, granule(address)),
        Instr::Sc { c2, .. } => StepFlows::One(stored(address, c2)),
        Instr::AmoSwapC { cd, c2, .. } => and_into(stored(address, c2), cd, granule(address)),
        Instr::CJalr { cd, c1, .. } => and_into(jumped_to(c1), cd, Spot::Pcc),
        Instr::CInvoke { c1, c2 } => StepFlows::Two(
            jumped_to(c1),
            Flow {
                set: Spot::Register(31),
                source: Spot::Register(c2.number()),
            },
        ),
        _ => StepFlows::Nothing,
    }
}
