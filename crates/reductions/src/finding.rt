//! What a search may leave out for a question.

ghost use Rattle.std.specs.Prelude.{◌≡◌, nat_lt, IfOk};
ghost use Rattle.asked_registers.specs.Asked.{IsWith};
ghost use Rattle.reductions.specs.Reductions.{IsAskedBy, IsGroupedBy, IsReduction, keeps_all};
ghost use Rattle.states.specs.Searches.{search_of};

use crate::reduction::{Keeps, Reduction};
use cheri_model::{Image, Reg};
use hart_groups::groups_of;
use hart_order::{HartGroups, UNGROUPED};
use live_registers::{LiveRegisters, RegisterSet};
use named_harts::HartSet;
use states::Search;
use std::alloc::{AllocError, Global};

/// How many registers there are.
const COUNT: u8 = 32;

/// Whether nothing may be left out: where all is to be kept, or every step is asked for; and whether
/// a sweep changes a hart depends on registers that otherwise don't matter.
fn keeps_all(keeps: Keeps, search: &Search<'_>) -> bool
    ensures { result ≡ keeps_all keeps (search_of search.now) }
{
    if keeps.registers && keeps.harts {
        return true;
    }
    if search.every_step {
        return true;
    }
    !search.sweeps.is_empty()
}

/// The set with all registers added.
fn with_all(asked: RegisterSet) -> RegisterSet
    ensures { IsWith asked (λ reg. nat_lt reg 32) result }
{
    let mut all = asked;
    for number in 0..COUNT {
        all = all.with(Reg::new(number));
    }
    all
}

/// The registers that matter by themselves: those that a question asks for, or all.
fn asked_by(keeps: bool, asked: RegisterSet) -> RegisterSet
    ensures { IsAskedBy keeps asked result }
{
    if keeps { with_all(asked) } else { asked }
}

/// The groups of harts that may change places.
fn groups_by(keeps: bool, image: &Image, named: &HartSet) -> HartGroups
    ensures { IsGroupedBy keeps image.now named.now result }
{
    // Its clause says that the image is well formed.
    let _granules = image.granules();
    if keeps {
        UNGROUPED
    } else {
        groups_of(image, named)
    }
}

/// What may be left out of a search for a question that asks for these registers and names these
/// harts. `None` where nothing is: if all is to be kept, if the search depends on all, or if each
/// register matters everywhere and no two harts are the same. Fails only when out of memory.
pub fn reduction_of(
    alloc: Global,
    search: &Search<'_>,
    keeps: Keeps,
    asked: RegisterSet,
    named: &HartSet,
) -> Result<Option<Reduction>, AllocError>
    ensures { IfOk result (λ found.
        IsReduction keeps (search_of search.now) asked named.now found) }
{
    if keeps_all(keeps, search) {
        return Ok(None);
    }
    let asked = asked_by(keeps.registers, asked);
    let live = LiveRegisters::guess(alloc, search.image.program(), asked)?;
    let groups = groups_by(keeps.harts, search.image, named);
    let reduction = Reduction { live, groups };
    if reduction.reduces() {
        Ok(Some(reduction))
    } else {
        Ok(None)
    }
}
