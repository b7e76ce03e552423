//! Lists of the greatest rights.
#![tactic(auto, unfolding(crate::proofs::Unfold::lists))]

ghost use Rattle.std.specs.Prelude.{◌≡◌, ◌++◌, filter, IfOk};
ghost use Rattle.authorities.specs.Gathering.{is_covered, stays, with_rights};

use crate::rights::Authority;
use explore_rights::Rights;
use std::alloc::{AllocError, Global};

/// Adds rights that are held in a state, unless they lie within some of the list. What lies within
/// them goes.
pub fn add(
    alloc: Global,
    greatest: &mut Vec<Authority>,
    rights: Rights,
    first: u32,
) -> Result<(), AllocError>
    ensures { IfOk result (λ _. greatest.new.items
        ≡ with_rights greatest.old.items rights first) }
{
    if is_covered(greatest.as_slice(), rights) {
        return Ok(());
    }
    let mut after = Vec::new(alloc);
    push_staying(&mut after, greatest.as_slice(), rights, true)?;
    after.push(Authority { rights, first })?;
    push_staying(&mut after, greatest.as_slice(), rights, false)?;
    *greatest = after;
    Ok(())
}

/// Whether rights lie within some of the list.
fn is_covered(greatest: &[Authority], rights: Rights) -> bool
    ensures { result ≡ is_covered greatest.now rights }
{
    greatest
        .iter()
        .any(|authority| rights.is_within(authority.rights))
}

/// Adds those that stay beside new rights: before these, or after them.
fn push_staying(
    after: &mut Vec<Authority>,
    greatest: &[Authority],
    rights: Rights,
    before: bool,
) -> Result<(), AllocError>
    ensures { IfOk result (λ _. after.new.items
        ≡ after.old.items ++ filter (stays rights before) greatest.now) }
{
    for authority in greatest {
        if authority.stays(rights, before) {
            after.push(*authority)?;
        }
    }
    Ok(())
}
