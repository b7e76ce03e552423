//! The greatest rights of two holders together.

ghost use Rattle.std.specs.Prelude.{◌≡◌, ◌++◌, ℕ, List, Option, filter, IfOk};
ghost use Rattle.authorities.specs.Authorities.{AreGreatest};
ghost use Rattle.authorities.specs.Gathering.{with_rights};
ghost use Rattle.authorities.specs.Merging.{stays_beside};
ghost use Rattle.cap_model.specs.values.CapValue.{CapValue};
ghost use Rattle.cheri_model.specs.runs.Machine.{MachineState};

use crate::greatest::add;
use crate::rights::Authority;
use std::alloc::{AllocError, Global};

/// Whether rights stay beside new ones: all but those that lie within these and were held later.
#[tactic(auto, unfolding(crate::specs::Merging::stays_beside))]
fn stays_beside(new: Authority, held: Authority) -> bool
    ensures { result ≡ stays_beside new held }
{
    if !held.rights.is_within(new.rights) {
        return true;
    }
    held.first <= new.first
}

/// Those that stay beside new ones.
fn staying(
    alloc: Global,
    greatest: &[Authority],
    new: Authority,
) -> Result<Vec<Authority>, AllocError>
    ensures { IfOk result (λ after. after.items ≡ filter (stays_beside new) greatest.now) }
{
    let mut after = Vec::new(alloc);
    for held in greatest {
        if stays_beside(new, *held) {
            after.push(*held)?;
        }
    }
    Ok(after)
}

/// Adds rights, each with the earlier of the states in which they are held.
fn add_earliest(
    alloc: Global,
    greatest: &mut Vec<Authority>,
    new: Authority,
) -> Result<(), AllocError>
    ensures { IfOk result (λ _. greatest.new.items
        ≡ with_rights (filter (stays_beside new) greatest.old.items) new.rights new.first) }
{
    let mut after = staying(alloc, greatest.as_slice(), new)?;
    add(alloc, &mut after, new.rights, new.first)?;
    *greatest = after;
    Ok(())
}

/// Adds the greatest rights of one holder to those of another: the greatest of both together, each
/// with the first state in which either holds just these. Fails only when out of memory.
pub fn merge(
    alloc: Global,
    greatest: &mut Vec<Authority>,
    others: &[Authority],
) -> Result<(), AllocError>
    ensures { IfOk result (λ _. (at : ℕ → Option MachineState)
        (one other : MachineState → List CapValue) →
        AreGreatest at one greatest.old.items → AreGreatest at other others.now →
        AreGreatest at (λ s. one s ++ other s) greatest.new.items) }
{
    for authority in others {
        add_earliest(alloc, greatest, *authority)?;
    }
    Ok(())
}
