//! Rights with the orders that lead to them.
#![tactic(auto, using(crate::proofs::ToldLemmas::told))]

ghost use Rattle.std.specs.Prelude.{◌<◌, IfOk};
ghost use Rattle.authority_texts.specs.Told.{AreKnown, AreAllKnown, AreTold, AreAllTold, IsTold};
ghost use Rattle.states.specs.Kept.{count};

use authorities::Authority;
use cheri_model::Op;
use explore_rights::Rights;
use states::Kept;
use std::alloc::{AllocError, Global};

/// Rights that are held, and the order that leads to the first state in which just these are.
#[derive(Drop)]
pub struct Told {
    pub rights: Rights,
    pub order: Vec<Op>,
}

/// Rights with the order that leads to them.
fn told_one(alloc: Global, kept: &Kept, authority: &Authority) -> Result<Told, AllocError>
    requires { authority.now.first < count kept.now }
    ensures { IfOk result (IsTold kept.now authority.now) }
{
    let order = kept.witness(alloc, authority.first)?;
    Ok(Told {
        rights: authority.rights,
        order,
    })
}

/// Rights with their orders, one by one. Fails only when out of memory.
pub fn told_of(alloc: Global, kept: &Kept, list: &[Authority]) -> Result<Vec<Told>, AllocError>
    requires { AreKnown (count kept.now) list.now }
    ensures { IfOk result (λ told. AreTold kept.now list.now told.items) }
{
    let mut told = Vec::with_capacity(alloc, list.len())?;
    for authority in list {
        told.push(told_one(alloc, kept, authority)?)?;
    }
    Ok(told)
}

/// Lists of rights with their orders, one by one. Fails only when out of memory.
pub fn all_told_of(
    alloc: Global,
    kept: &Kept,
    lists: &[Vec<Authority>],
) -> Result<Vec<Vec<Told>>, AllocError>
    requires { AreAllKnown (count kept.now) lists.now }
    ensures { IfOk result (λ told. AreAllTold kept.now lists.now told.items) }
{
    let mut told = Vec::with_capacity(alloc, lists.len())?;
    for list in lists {
        told.push(told_of(alloc, kept, list.as_slice())?)?;
    }
    Ok(told)
}
