//! Rights with the orders that lead to them.

ghost use Rattle.std.specs.Prelude.{◌≡◌, ◌<◌, ℕ, length, slice_get, true, IfOk, IfSome};
ghost use Rattle.alike_authority.specs.AlikeAuthority.{
  AreTold,
  IsHartList,
  IsHartTold,
  IsMemoryList,
  IsMemoryTold,
};
ghost use Rattle.alike_authority.specs.GroupRights.{IsWhole, group_values};
ghost use Rattle.authorities.specs.Authorities.{AreGreatest, IsHeld, hart_values, memory_values};
ghost use Rattle.explore_sights.specs.declared.sights.Sight.TheVariants.{Rights as OfRights};
ghost use Rattle.forgotten_states.specs.Surveys.{at};
ghost use Rattle.live_registers.specs.RegisterSets.{has};

use crate::exchanging::{exchanged_order, holder_of};
use crate::groups::group_list;
use authorities::{Authority, Holder, greatest_of, hart_authorities};
use authority_texts::Told;
use cheri_model::NoMemory;
use forgotten_states::Survey;
use found_texts::replayed;
use hart_order::HartGroups;
use std::alloc::Global;

/// Rights that harts hold that stand for a hart, with an order after which the hart does: that to
/// the first state in which they do, with this hart in the place of the one that holds them there.
fn hart_told(
    alloc: Global,
    survey: &Survey<'_>,
    groups: &HartGroups,
    hart: usize,
    authority: &Authority,
) -> Result<Told, NoMemory>
    requires whole { IsWhole survey.now groups.now }
    requires hart { hart < length survey.now.image.harts }
    requires held { IsHeld (at survey.now)
        (group_values groups.now hart (length survey.now.image.harts)) authority.now.first
        authority.now.rights }
    ensures { IfOk result (IsHartTold survey.now hart authority.now) }
{
    // Its clause says that these are the first states, or all, of at most 8 harts.
    let _count = survey.len();
    let witness = survey.order_to(alloc, authority.first)?;
    let state = replayed(alloc, survey.image(), witness.as_slice())?;
    let other = holder_of(state.harts(), groups, hart, authority.rights);
    let order = exchanged_order(alloc, witness.as_slice(), other as u8, hart as u8)?;
    Ok(Told {
        rights: authority.rights,
        order,
    })
}

/// The same of a list.
fn hart_list_told(
    alloc: Global,
    survey: &Survey<'_>,
    groups: &HartGroups,
    hart: usize,
    list: &[Authority],
) -> Result<Vec<Told>, NoMemory>
    requires whole { IsWhole survey.now groups.now }
    requires hart { hart < length survey.now.image.harts }
    requires greatest { AreGreatest (at survey.now)
        (group_values groups.now hart (length survey.now.image.harts)) list.now }
    ensures { IfOk result (λ told. AreTold (IsHartTold survey.now hart) list.now told.items) }
{
    let mut told = Vec::with_capacity(alloc, list.len())?;
    for authority in list {
        told.push(hart_told(alloc, survey, groups, hart, authority)?)?;
    }
    Ok(told)
}

/// What is told of a hart, where these are the greatest of what each hart holds.
fn hart_list(
    alloc: Global,
    survey: &Survey<'_>,
    groups: &HartGroups,
    lists: &[Vec<Authority>],
    hart: usize,
) -> Result<Vec<Told>, NoMemory>
    requires whole { IsWhole survey.now groups.now }
    requires rights { survey.now.sight ≡ OfRights }
    requires hart { hart < length survey.now.image.harts }
    requires count { length lists.now ≡ length survey.now.image.harts }
    requires lists { (number : ℕ) → IfSome (slice_get lists.now number) (λ list.
        AreGreatest (at survey.now) (hart_values number) list.items) }
    ensures { IfOk result (λ told. IsHartList survey.now hart told.items) }
{
    // Its clause says that these are the first states, or all.
    let _count = survey.len();
    let list = group_list(alloc, groups, lists, hart)?;
    hart_list_told(alloc, survey, groups, hart, list.as_slice())
}

/// What is told of each hart. Fails only when out of memory, or of numbers past 2^32.
pub(crate) fn hart_lists(
    alloc: Global,
    survey: &Survey<'_>,
    groups: &HartGroups,
) -> Result<Vec<Vec<Told>>, NoMemory>
    requires whole { IsWhole survey.now groups.now }
    requires rights { survey.now.sight ≡ OfRights }
    ensures count { IfOk result (λ lists. length lists.items ≡ length survey.now.image.harts) }
    ensures lists { IfOk result (λ lists. (hart : ℕ) →
        IfSome (slice_get lists.items hart) (λ told. IsHartList survey.now hart told.items)) }
{
    // Its clause says that these are the first states, or all, of at most 8 harts.
    let _count = survey.len();
    let rows = survey.rows();
    let count = survey.image().harts().len();
    let own = hart_authorities(alloc, rows.graph, rows.reached, count as u32)?;
    let mut lists = Vec::with_capacity(alloc, count)?;
    for hart in 0..count {
        lists.push(hart_list(alloc, survey, groups, own.as_slice(), hart)?)?;
    }
    Ok(lists)
}

/// Rights that memory holds, with the order to the first state in which it does.
fn memory_told(alloc: Global, survey: &Survey<'_>, authority: &Authority) -> Result<Told, NoMemory>
    requires held { IsHeld (at survey.now) memory_values authority.now.first
        authority.now.rights }
    ensures { IfOk result (IsMemoryTold survey.now authority.now) }
{
    // Its clause says that these are the first states, or all.
    let _count = survey.len();
    let order = survey.order_to(alloc, authority.first)?;
    Ok(Told {
        rights: authority.rights,
        order,
    })
}

/// The same of a list.
fn memory_list_told(
    alloc: Global,
    survey: &Survey<'_>,
    list: &[Authority],
) -> Result<Vec<Told>, NoMemory>
    requires greatest { AreGreatest (at survey.now) memory_values list.now }
    ensures { IfOk result (λ told. AreTold (IsMemoryTold survey.now) list.now told.items) }
{
    let mut told = Vec::with_capacity(alloc, list.len())?;
    for authority in list {
        told.push(memory_told(alloc, survey, authority)?)?;
    }
    Ok(told)
}

/// What is told of memory. Fails only when out of memory, or of numbers past 2^32.
pub(crate) fn memory_list(alloc: Global, survey: &Survey<'_>) -> Result<Vec<Told>, NoMemory>
    requires asked { (reg : ℕ) → has survey.now.live.asked reg ≡ true }
    requires rights { survey.now.sight ≡ OfRights }
    ensures { IfOk result (λ told. IsMemoryList survey.now told.items) }
{
    // Its clause says that these are the first states, or all, of at most 8 harts.
    let _count = survey.len();
    let rows = survey.rows();
    let list = greatest_of(alloc, rows.graph, rows.reached, Holder::Memory)?;
    memory_list_told(alloc, survey, list.as_slice())
}
