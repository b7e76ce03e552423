//! The search where harts forget the registers that don't matter to a condition, and those that are
//! the same to it stand in one order; and its answer.

ghost use Rattle.std.specs.Prelude.{
  ◌≡◌,
  string_bytes,
  false,
  true,
  [],
  IfOk,
  IfSome,
  None,
  option_map,
};
ghost use Rattle.asked_registers.specs.Asked.{HasAsked, condition_asks};
ghost use Rattle.cheri_model.specs.runs.Machine.{opening_state};
ghost use Rattle.cheri_model.specs.runs.Replay.{is_legal, replayed_state};
ghost use Rattle.conditions.specs.Holding.{holds};
ghost use Rattle.found_texts.specs.Find.{IsNowhere, IsShortened};
ghost use Rattle.found_texts.specs.Reduced.{IsReducedAnswer, IsStateAnswer, SaysMet};
ghost use Rattle.hart_order.specs.GroupedTurns.{keeps_number};
ghost use Rattle.hart_symmetry.specs.Named.{NamedStay, condition_names};
ghost use Rattle.live_registers.specs.LiveSets.{IsRight};
ghost use Rattle.named_harts.specs.NamedHarts.{IsSetOf};
ghost use Rattle.order_texts.specs.OrderTexts.{orders_of};
ghost use Rattle.schedules.specs.Schedules.{AreAllowed};
ghost use Rattle.shown_states.specs.declared.form.Ending.{Ending};
ghost use Rattle.states.specs.Searches.{IsSearchable, search_of};

use crate::finding::{Led, Told, absent_told, find, found_told, opened, shortened};
use crate::replaying::replayed;
use asked_registers::with_nodes;
use cheri_model::{NoMemory, Op};
use conditions::Condition;
use explore_sights::Sight;
use forgotten_states::{Matters, Sought, seek};
use graph_search::Progress;
use live_registers::RegisterSet;
use named_harts::{HartSet, named_harts};
use reductions::{Keeps, LeftOut, Reduction, reduction_of};
use shown_states::{ConditionTest, Format};
use states::Search;
use std::alloc::Global;

/// What leads to a state in which the condition holds, where this order does: the order without
/// steps that the condition doesn't need.
fn met(
    alloc: Global,
    search: &Search<'_>,
    condition: &Condition,
    order: Vec<Op>,
) -> Result<Led, NoMemory>
    requires unswept { search.now.sweeps.now ≡ [] }
    requires allowed { AreAllowed [] order.items }
    requires legal { is_legal search.now.image.now (opening_state search.now.image.now) order.items
        ≡ true }
    requires passing { holds (replayed_state search.now.image.now order.items) condition.now
        ≡ true }
    ensures { IfOk result (λ led. IsShortened search.now.image.now condition.now
        search.now.sweeps.now led.order.items led.state) }
{
    if let Some(led) = shortened(alloc, search, condition, order.as_slice())? {
        return Ok(led);
    }
    let state = replayed(alloc, search.image, order.as_slice())?;
    Ok(Led { order, state })
}

/// The answer that a search gave which left this out.
fn sought_told(
    alloc: Global,
    search: &Search<'_>,
    condition: &Condition,
    left_out: LeftOut,
    format: Format,
    sought: Sought,
) -> Result<Told, NoMemory>
    requires unswept { search.now.sweeps.now ≡ [] }
    requires met { IfSome sought.order (λ order. AreAllowed [] order.items
        × (is_legal search.now.image.now (opening_state search.now.image.now) order.items ≡ true)
        × (holds (replayed_state search.now.image.now order.items) condition.now ≡ true)) }
    ensures says { IfOk result (λ told. SaysMet (search_of search.now) condition.now
        left_out format (option_map (λ order. order.items) sought.order) sought.count
        sought.complete (orders_of told.orders.items) (string_bytes told.answer.text)
        told.answer.ending) }
    ensures nowhere { IfOk result (λ told. told.answer.ending ≡ Ending.Nowhere
        → (sought.order ≡ None) × (sought.complete ≡ true)) }
{
    match sought.order {
        Some(order) => {
            let led = met(alloc, search, condition, order)?;
            found_told(alloc, format, Some(left_out), search.image, led)
        }
        None => absent_told(
            alloc,
            format,
            Some(left_out),
            sought.complete,
            search.image,
            sought.count,
        ),
    }
}

/// As `find`, where states are told apart only by what matters: to the program, and to the
/// condition.
fn find_reduced<P: Progress>(
    alloc: Global,
    search: &Search<'_>,
    condition: &Condition,
    reduction: &Reduction,
    format: Format,
    progress: &mut P,
) -> Result<Told, NoMemory>
    requires search { IsSearchable (search_of search.now) }
    requires turns { search.now.every_step ≡ false }
    requires unswept { search.now.sweeps.now ≡ [] }
    requires right { IsRight search.now.image.now.program reduction.now.live }
    requires asked { HasAsked reduction.now.live.asked (condition_asks condition.now) }
    requires named { NamedStay (keeps_number reduction.now.groups)
        (condition_names condition.now) }
    ensures says { IfOk result (λ told. IsReducedAnswer (search_of search.now) condition.now
        reduction.now.live reduction.now.groups format (orders_of told.orders.items)
        (string_bytes told.answer.text) told.answer.ending) }
    ensures nowhere { IfOk result (λ told. told.answer.ending ≡ Ending.Nowhere
        → IsNowhere (search_of search.now) condition.now) }
{
    let core = opened(alloc, search.image)?;
    let seen = condition.copy(alloc)?;
    let sees = Sight::Condition(seen);
    let matters = Matters {
        sees: &sees,
        live: &reduction.live,
        groups: reduction.groups,
    };
    let test = ConditionTest { condition };
    let sought = seek(alloc, search, matters, &core, &test, progress)?;
    sought_told(
        alloc,
        search,
        condition,
        reduction.left_out(),
        format,
        sought,
    )
}

/// The registers that a condition asks for.
fn asked_for(alloc: Global, condition: &Condition) -> Result<RegisterSet, NoMemory>
    ensures { IfOk result (λ asked. HasAsked asked (condition_asks condition.now)) }
{
    let nodes = condition.nodes(alloc)?;
    Ok(with_nodes(RegisterSet::none(), nodes.as_slice()))
}

/// The harts that a condition names by their numbers.
fn named_by(alloc: Global, condition: &Condition) -> Result<HartSet, NoMemory>
    ensures { IfOk result (λ named. IsSetOf (condition_names condition.now) named) }
{
    let nodes = condition.nodes(alloc)?;
    named_harts(alloc, nodes.as_slice())
}

/// Searches the states that an image reaches for one in which a condition holds, as `find`. States
/// that differ only in registers which no longer matter, or in which of several equal harts stands
/// where, count as one, if these are not to be kept and the search allows it; the answer says so
/// where it is done. Fails only when out of memory, or of numbers past 2^32.
pub fn find_state<P: Progress>(
    alloc: Global,
    search: &Search<'_>,
    condition: &Condition,
    keeps: Keeps,
    format: Format,
    progress: &mut P,
) -> Result<Told, NoMemory>
    requires { IsSearchable (search_of search.now) }
    ensures says { IfOk result (λ told. IsStateAnswer keeps (search_of search.now)
        condition.now format (orders_of told.orders.items) (string_bytes told.answer.text)
        told.answer.ending) }
    ensures nowhere { IfOk result (λ told. told.answer.ending ≡ Ending.Nowhere
        → IsNowhere (search_of search.now) condition.now) }
{
    let asked = asked_for(alloc, condition)?;
    let named = named_by(alloc, condition)?;
    match reduction_of(alloc, search, keeps, asked, &named)? {
        Some(reduction) => find_reduced(alloc, search, condition, &reduction, format, progress),
        None => find(alloc, search, condition, format, progress),
    }
}
