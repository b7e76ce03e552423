//! Searches for a state.

ghost use Rattle.std.specs.Prelude.{
  ◌≡◌,
  ◌<◌,
  ◌≤◌,
  ◌⊎◌,
  [],
  length,
  None,
  false,
  true,
  IfOk,
  IfSome,
  option_map,
};
ghost use Rattle.cheri_model.specs.runs.Machine.{opening_state};
ghost use Rattle.cheri_model.specs.runs.Replay.{is_legal, replayed_state};
ghost use Rattle.explore_sights.specs.Sights.{hides};
ghost use Rattle.explore_turns.specs.Turns.{KeepsPassing};
ghost use Rattle.forgotten_states.specs.Nodes.{AreNodes, IsFirstPassing, at};
ghost use Rattle.forgotten_states.specs.Sought.{IsSoughtBy};
ghost use Rattle.forgotten_turns.specs.ForgottenTurns.{HidesForgotten, PassesForgotten};
ghost use Rattle.hart_order.specs.GroupedTurns.{keeps_number};
ghost use Rattle.hart_symmetry.specs.Renaming.{PassesRenamed};
ghost use Rattle.live_registers.specs.LiveSets.{IsRight};
ghost use Rattle.states.specs.Kept.{NonePasses};
ghost use Rattle.states.specs.Searches.{IsSearchable, search_of};

use crate::nodes::{Nodes, Turns};
use cheri_model::Op;
use cores::Core;
use explore_sights::Sight;
use graph_search::Progress;
use hart_order::HartGroups;
use live_registers::LiveRegisters;
use states::{Search, StateTest};
use std::alloc::{AllocError, Global};

/// How many nodes a search keeps first, before it looks at them.
const FIRST_STAGE: u32 = 1 << 14;

/// How many times as many it keeps in the next stage.
const STAGE_GROWTH: u32 = 8;

/// What matters to a question: what it sees of a hart's steps, the registers that make a
/// difference to it, and the groups of harts that it doesn't tell apart.
#[derive(Clone, Copy)]
pub struct Matters<'a> {
    pub sees: &'a Sight,
    pub live: &'a LiveRegisters,
    pub groups: HartGroups,
}

/// What a search for a state gives, where harts forget the registers that don't matter, and harts
/// of one group stand in order.
#[derive(Drop)]
pub struct Sought {
    /// An order that leads to a state that passes: the fewest turns, and of those the least.
    pub order: Option<Vec<Op>>,
    /// How many states were kept, which have forgotten, and whose harts stand in order.
    pub count: u32,
    /// Whether these are all.
    pub complete: bool,
}

/// The nodes that a search kept, and the first of them that passes a test, if one does.
#[derive(Drop)]
struct First<'a> {
    nodes: Nodes<'a>,
    number: Option<u32>,
}

/// Searches in stages from the opening state of an image, which `core` has, until a node passes, or
/// for as many as the limit.
fn first_of<'a, T: StateTest, P: Progress>(
    alloc: Global,
    turns: Turns<'a>,
    core: &Core,
    limit: u32,
    test: &T,
    progress: &mut P,
) -> Result<First<'a>, AllocError>
    requires some { 0 < limit }
    requires opening { core.now.state ≡ opening_state turns.image.now }
    requires right { IsRight turns.image.now.program turns.live.now }
    requires hidden { HidesForgotten turns.live.now (hides turns.sees.now) }
    ensures nodes { IfOk result (λ first. AreNodes turns.entry.image.now turns.entry.sees.now
        turns.entry.live.now turns.entry.groups first.nodes.graph first.nodes.reached
        first.nodes.limit) }
    ensures within { IfOk result (λ first. first.nodes.limit ≤ limit) }
    ensures first { IfOk result (λ first. IsFirstPassing
        (at first.nodes.graph first.nodes.reached) (length first.nodes.reached.nodes)
        (T.passing test.now) first.number) }
    ensures all { IfOk result (λ first. first.number ≡ None →
        (first.nodes.reached.complete ≡ true) ⊎ (first.nodes.limit ≡ limit)) }
{
    let stage = limit.min(FIRST_STAGE);
    let mut nodes = Nodes::search(alloc, turns, core, stage, progress)?;
    let mut number = nodes.first_passing(0, test);
    while number.is_none() && !nodes.reached.is_complete() && nodes.limit < limit {
        let stage = limit.min(nodes.limit.saturating_mul(STAGE_GROWTH));
        let looked_at = nodes.reached.len();
        nodes = nodes.search_on(alloc, stage, progress)?;
        number = nodes.first_passing(looked_at, test);
    }
    Ok(First { nodes, number })
}

/// The order that leads to the first state that passes a test, the opening state included. States
/// are told apart only by what matters to the question, and not by the order of harts of one group.
/// Without sweeps, and by turns: with sweeps it depends on each register whether a sweep sees a
/// hart. Where no state passes, as many as the limit were kept, or all. It searches in stages, so
/// that it keeps not many more states than up to the first that passes. Fails only when out of
/// memory, or of numbers past 2^32.
pub fn seek<T: StateTest, P: Progress>(
    alloc: Global,
    search: &Search<'_>,
    matters: Matters<'_>,
    core: &Core,
    test: &T,
    progress: &mut P,
) -> Result<Sought, AllocError>
    requires search { IsSearchable (search_of search.now) }
    requires turns { search.now.every_step ≡ false }
    requires unswept { search.now.sweeps.now ≡ [] }
    requires opening { core.now.state ≡ opening_state search.now.image.now }
    requires right { IsRight search.now.image.now.program matters.live.now }
    requires unseen { KeepsPassing (hides matters.sees.now) (T.passing test.now) }
    requires hidden { HidesForgotten matters.live.now (hides matters.sees.now) }
    requires passing { PassesForgotten matters.live.now (T.passing test.now) }
    requires renamed { PassesRenamed (keeps_number matters.groups) (T.passing test.now) }
    ensures answer { IfOk result (λ sought. IsSoughtBy (search_of search.now) matters.entry.sees.now
        matters.entry.live.now matters.entry.groups (T.passing test.now)
        (option_map (λ order. order.items) sought.order) sought.count sought.complete) }
    ensures found { IfOk result (λ sought. IfSome sought.order (λ order.
        (is_legal search.now.image.now (opening_state search.now.image.now) order.items ≡ true)
        × (T.passing test.now (replayed_state search.now.image.now order.items) ≡ true))) }
    ensures none { IfOk result (λ sought. sought.order ≡ None → sought.complete ≡ true →
        NonePasses search.now.image.now [] (T.passing test.now)) }
    ensures limit { IfOk result (λ sought. sought.count ≤ search.now.limit) }
{
    let turns = Turns {
        image: search.image,
        sees: matters.sees,
        live: matters.live,
        groups: matters.groups,
    };
    let first = first_of(alloc, turns, core, search.limit, test, progress)?;
    let count = first.nodes.reached.len();
    let complete = first.nodes.reached.is_complete();
    let Some(number) = first.number else {
        return Ok(Sought {
            order: None,
            count,
            complete,
        });
    };
    let order = first.nodes.order_to(alloc, turns, number)?;
    Ok(Sought {
        order: Some(order),
        count,
        complete,
    })
}
