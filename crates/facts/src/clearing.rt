//! Which instruction cleared which tag.
#![tactic(auto, unfolding(crate::proofs::Unfold::clearing))]

ghost use Rattle.std.specs.Prelude.{◌≡◌, ◌==◌, ◌&&◌, ◌||◌, not};
ghost use Rattle.std.specs.Option.{option_map};
ghost use Rattle.cap_model.specs.values.CapValue.{tag_of};
ghost use Rattle.cheri_model.specs.steps.Actions.{action};
ghost use Rattle.instructions.specs.Actions.{action_of};
ghost use Rattle.facts.specs.Operands.{model_of, model_op};
ghost use Rattle.facts.specs.Losses.{
  why_lost,
  is_build,
  lost,
  lost_if,
  clears_of,
  lost_by_load,
  lost_by_store,
};

use crate::losses::{
    bounds_why, build_why, exact_bounds_why, moved_why, open_why, seal_entry_why, seal_why,
    unseal_why, untagged_why,
};
use crate::operands::{CapOp, Derived, Operands, form_derived, register};
use crate::step_facts::{Cleared, NamedValue};
use crate::why::Why;
use cheri_model::permission::LOAD_CAP;
use cheri_model::{Instr, Reg};
use hart::Hart;
use instructions::Action;

/// The first reason for a result without a tag.
fn why_lost(op: CapOp, o: &Operands) -> Option<Why>
    ensures { result ≡ why_lost (model_op op) o.now }
{
    match op {
        CapOp::CMove => untagged_why(o),
        CapOp::CClearTag => Some(Why::AskedFor),
        CapOp::CSetAddr => moved_why(o, o.w.addr()),
        CapOp::CIncOffset => moved_why(o, o.v.addr().wrapping_add(o.w.addr())),
        CapOp::CSetBounds => bounds_why(o),
        CapOp::CSetBoundsExact => exact_bounds_why(o),
        CapOp::CAndPerm | CapOp::CSetFlags => open_why(o),
        CapOp::CSetHigh => Some(Why::UpperReplaced),
        CapOp::CSeal => seal_why(o),
        CapOp::CUnseal => unseal_why(o),
        CapOp::CSealEntry => seal_entry_why(o),
        CapOp::CBuildCap => build_why(o),
    }
}

/// Whether the result of an instruction is explained where it has no tag: where the source had one,
/// and always that of CBuildCap. Nothing is set in c0.
fn is_explained(op: CapOp, o: &Operands) -> bool
    ensures { result ≡ (not (o.now.cd == 0) && (tag_of o.now.v || is_build (model_op op))) }
{
    if o.cd.number() == 0 {
        return false;
    }
    o.v.tag() || matches!(op, CapOp::CBuildCap)
}

/// The result that lost the tag of its source, and why.
fn lost(op: CapOp, o: &Operands) -> Option<Cleared>
    ensures { result ≡ lost (model_op op) o.now }
{
    if !is_explained(op, o) {
        return None;
    }
    match why_lost(op, o) {
        Some(why) => Some(Cleared {
            name: register(o.cd),
            why,
        }),
        None => None,
    }
}

/// The same of an instruction that makes a capability, if it does.
fn lost_if(derived: Option<Derived>) -> Option<Cleared>
    ensures { result ≡ lost_if (option_map model_of derived) }
{
    match derived {
        Some(made) => lost(made.op, &made.on),
        None => None,
    }
}

/// A capability that is found and loaded through a register without Load_Capability.
fn lost_by_load(cd: Reg, c1: Reg, hart: &Hart, found: &Option<NamedValue>) -> Option<Cleared>
    ensures { result ≡ lost_by_load cd c1 hart.now found.now }
{
    let Some(found) = found else {
        return None;
    };
    if cd.number() == 0 {
        return None;
    }
    if !found.value.tag() {
        return None;
    }
    if hart.register(c1).has_permission(LOAD_CAP) {
        return None;
    }
    Some(Cleared {
        name: register(cd),
        why: Why::Lacks {
            name: register(c1),
            permission: LOAD_CAP,
        },
    })
}

/// Data stored over a capability that is found.
fn lost_by_store(found: &Option<NamedValue>) -> Option<Cleared>
    ensures { result ≡ lost_by_store found.now }
{
    let Some(found) = found else {
        return None;
    };
    if !found.value.tag() {
        return None;
    }
    Some(Cleared {
        name: found.name,
        why: Why::DataStored,
    })
}

/// What an instruction that asks for this action clears when it is done; it finds this granule, if
/// it accesses memory.
pub fn clears_of(
    instr: &Instr,
    asked: &Action,
    hart: &Hart,
    found: &Option<NamedValue>,
) -> Option<Cleared>
    ensures { action_of asked.now ≡ action instr.now hart.now →
        result ≡ clears_of instr.now hart.now found.now }
{
    match *asked {
        Action::Put { .. } => lost_if(form_derived((*instr).form(), hart)),
        Action::Store { .. } => lost_by_store(found),
        Action::LoadCap { cd, c1, .. } | Action::Swap { cd, c1, .. } => {
            lost_by_load(cd, c1, hart, found)
        }
        Action::Load { .. }
        | Action::StoreCap { .. }
        | Action::Branch { .. }
        | Action::Jump { .. }
        | Action::JumpThrough { .. }
        | Action::Invoke { .. }
        | Action::Halt => None,
    }
}
