//! Orders in which two harts have each other's numbers.

ghost use Rattle.std.specs.Prelude.{◌≡◌, ◌<◌, ◌≤◌, ◌↔◌, ℕ, length, true, IfOk, IsTrue};
ghost use Rattle.alike_authority.specs.Holders.{HasHolder, IsHolder};
ghost use Rattle.cap_model.specs.values.CapValue.{tag_of};
ghost use Rattle.explore_rights.specs.Held.{Holds, held_by};
ghost use Rattle.explore_rights.specs.Rights.{rights_of};
ghost use Rattle.hart_exchanges.specs.Exchanges.{exchanged_operation, exchanged_order};

use crate::groups::stands_for;
use cap_ops::Cap;
use cheri_model::{Op, Reg};
use explore_rights::Rights;
use hart::Hart;
use hart_order::HartGroups;
use std::alloc::{AllocError, Global};

/// Whether a value has just these rights.
fn has_just(value: Cap, rights: Rights) -> bool
    ensures { IsTrue result ↔ ((tag_of value ≡ true) × (rights_of value ≡ rights)) }
{
    if !value.tag() {
        return false;
    }
    Rights::of(value) == rights
}

/// Whether a hart holds just these rights in its PCC or a register.
fn holds(hart: &Hart, rights: Rights) -> bool
    ensures { IsTrue result ↔ Holds (held_by hart.now) rights }
{
    if has_just(hart.pcc(), rights) {
        return true;
    }
    for number in 0..32 {
        if has_just(hart.register(Reg::new(number)), rights) {
            return true;
        }
    }
    false
}

/// A hart that stands for another and holds just these rights: that hart, if it does, and else the
/// first.
pub(crate) fn holder_of(harts: &[Hart], groups: &HartGroups, hart: usize, rights: Rights) -> usize
    requires there { hart < length harts.now }
    requires held { HasHolder harts.now groups.now hart rights }
    ensures { IsHolder harts.now groups.now hart rights result }
{
    if holds(&harts[hart], rights) {
        return hart;
    }
    for other in 0..harts.len() {
        if stands_for(groups, hart, other) && holds(&harts[other], rights) {
            return other;
        }
    }
    hart
}

/// An operation, where two harts have each other's numbers.
#[tactic(auto, unfolding(crate::proofs::Unfold::exchanges))]
fn exchanged(op: Op, one: u8, other: u8) -> Op
    ensures { result ≡ exchanged_operation one other op }
{
    match op {
        Op::Step(hart) => {
            if hart == one {
                Op::Step(other)
            } else if hart == other {
                Op::Step(one)
            } else {
                Op::Step(hart)
            }
        }
        Op::Sweep { lo, hi } => Op::Sweep { lo, hi },
    }
}

/// An order, where two harts have each other's numbers. Fails only when out of memory.
#[tactic(auto, unfolding(crate::proofs::Unfold::orders))]
pub(crate) fn exchanged_order(
    alloc: Global,
    order: &[Op],
    one: u8,
    other: u8,
) -> Result<Vec<Op>, AllocError>
    ensures { IfOk result (λ after. after.items ≡ exchanged_order one other order.now) }
{
    let mut after = Vec::with_capacity(alloc, order.len())?;
    for op in order {
        after.push(exchanged(*op, one, other))?;
    }
    Ok(after)
}
