//! The greatest rights of harts that stand for one another.

ghost use Rattle.std.specs.Prelude.{◌≡◌, ◌<◌, ◌≤◌, ℕ, Option, length, slice_get, IfOk, IfSome};
ghost use Rattle.alike_authority.specs.GroupRights.{group_values};
ghost use Rattle.authorities.specs.Authorities.{AreGreatest, hart_values};
ghost use Rattle.cheri_model.specs.runs.Machine.{MachineState};
ghost use Rattle.hart_exchanges.specs.Exchanges.{stands_for};
ghost use Rattle.hart_order.specs.Arrangements.{are_grouped, group_of};

use authorities::{Authority, merge};
use hart_order::HartGroups;
use std::alloc::{AllocError, Global};

/// The group of a hart.
fn group_of(groups: &HartGroups, hart: usize) -> u8
    ensures { result ≡ group_of groups.now hart }
{
    match groups.get(hart) {
        Some(group) => *group,
        None => 0,
    }
}

/// Whether two harts are of one group.
fn are_grouped(groups: &HartGroups, one: usize, other: usize) -> bool
    ensures { result ≡ are_grouped groups.now one other }
{
    let group = group_of(groups, one);
    group != 0 && group == group_of(groups, other)
}

/// Whether a hart stands for another: it is this hart, or one of its group.
#[tactic(auto, unfolding(hart_exchanges::specs::Exchanges::stands_for))]
pub(crate) fn stands_for(groups: &HartGroups, one: usize, other: usize) -> bool
    ensures { result ≡ stands_for groups.now one other }
{
    if one == other {
        return true;
    }
    are_grouped(groups, one, other)
}

/// The greatest of what all harts hold that stand for a hart, where these are the greatest of what
/// each hart holds. Fails only when out of memory.
pub(crate) fn group_list(
    alloc: Global,
    groups: &HartGroups,
    lists: &[Vec<Authority>],
    hart: usize,
) -> Result<Vec<Authority>, AllocError>
    ensures { IfOk result (λ list. (at : ℕ → Option MachineState) →
        ((number : ℕ) → IfSome (slice_get lists.now number) (λ own.
        AreGreatest at (hart_values number) own.items)) →
        AreGreatest at (group_values groups.now hart (length lists.now)) list.items) }
{
    let mut greatest = Vec::new(alloc);
    for other in 0..lists.len() {
        if stands_for(groups, hart, other) {
            merge(alloc, &mut greatest, lists[other].as_slice())?;
        }
    }
    Ok(greatest)
}
