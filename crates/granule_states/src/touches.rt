//! Who touched which granule, as a search met it: a guess at their owners.

ghost use Rattle.std.specs.Prelude.{◌≡◌, ℕ, IfOk, IfSome, true};
ghost use Rattle.granule_states.specs.Graphs.{is_shared};

use crate::accesses::Access;
use std::alloc::{AllocError, Global};

/// Who touched a granule: a hart, whether others did, too, and whether any of them stored.
#[derive(Clone, Copy)]
pub struct Touches {
    pub hart: Option<u32>,
    pub others: bool,
    pub stores: bool,
}

/// Of a granule that nobody touched.
pub const UNTOUCHED: Touches = Touches {
    hart: None,
    others: false,
    stores: false,
};

/// Notes what the step of a hart asks for.
pub fn note(touches: &mut Vec<Touches>, hart: u32, access: Access) {
    let place = access.granule as usize;
    if !access.asks || place >= touches.len() {
        return;
    }
    let before = touches[place];
    let others = match before.hart {
        Some(first) => before.others || first != hart,
        None => false,
    };
    touches[place] = Touches {
        hart: Some(hart),
        others,
        stores: before.stores || access.stores,
    };
}

/// The owners of granules, where these were their touches. Fails only when out of memory.
pub fn guess_owners(alloc: Global, touches: &[Touches]) -> Result<Vec<Option<u32>>, AllocError> {
    let mut owners = Vec::with_capacity(alloc, touches.len())?;
    for touch in touches {
        owners.push(if touch.others { None } else { touch.hart })?;
    }
    Ok(owners)
}

/// The shared granules with those that two harts touched and one stored to, if there are more of
/// them than before. Fails only when out of memory.
pub fn guess_shared(
    alloc: Global,
    touches: &[Touches],
    shared: &[bool],
) -> Result<Option<Vec<bool>>, AllocError>
    ensures { IfOk result (λ found. IfSome found (λ more. (granule : ℕ) →
        is_shared shared.now granule ≡ true → is_shared more.items granule ≡ true)) }
{
    let mut more = Vec::from_slice(alloc, shared)?;
    let mut found = false;
    for granule in 0..touches.len() {
        let touch = touches[granule];
        if granule < more.len() && touch.others && touch.stores && !more[granule] {
            more[granule] = true;
            found = true;
        }
    }
    if !found {
        return Ok(None);
    }
    Ok(Some(more))
}

/// Whether somebody touched a granule that isn't shared.
pub fn has_own(touches: &[Touches], shared: &[bool]) -> bool {
    for granule in 0..touches.len() {
        if granule < shared.len() && !shared[granule] && touches[granule].hart.is_some() {
            return true;
        }
    }
    false
}
