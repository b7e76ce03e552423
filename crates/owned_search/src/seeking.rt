//! Searches for a state.

ghost use Rattle.std.specs.Prelude.{
  ◌≡◌,
  ◌<◌,
  ◌≤◌,
  ◌⊎◌,
  [],
  length,
  None,
  false,
  true,
  IfOk,
  IfSome,
  option_map,
};
ghost use Rattle.cheri_model.specs.runs.Machine.{opening_state};
ghost use Rattle.cheri_model.specs.runs.Replay.{is_legal, replayed_state};
ghost use Rattle.explore_sights.specs.Sights.{hides};
ghost use Rattle.forgotten_turns.specs.ForgottenTurns.{HidesForgotten, PassesForgotten};
ghost use Rattle.granule_states.specs.Graphs.{is_shared};
ghost use Rattle.live_registers.specs.LiveSets.{IsRight};
ghost use Rattle.own_granules.specs.Turns.{KeepsPassing};
ghost use Rattle.owned_search.specs.Graphs.{IsGraphOf};
ghost use Rattle.owned_search.specs.Nodes.{AreNodes, IsFirstPassing, at};
ghost use Rattle.owned_search.specs.Sought.{AreMoreShared, IsOwnedSought, KeepsPassingShared, sized};
ghost use Rattle.states.specs.Kept.{NonePasses};
ghost use Rattle.states.specs.Searches.{IsSearchable, search_of};

use crate::nodes::{Nodes, Turns};
use cheri_model::Op;
use cores::Core;
use explore_sights::Sight;
use graph_search::Progress;
use live_registers::LiveRegisters;
use states::{Search, StateTest};
use std::alloc::{AllocError, Global};

/// How many nodes a search keeps first, before it looks at them.
const FIRST_STAGE: u32 = 1 << 14;

/// How many times as many it keeps in the next stage.
const STAGE_GROWTH: u32 = 8;

/// What matters to a question: what it sees of a hart's steps, the registers that make a
/// difference to it, and the granules that are shared from the first on, as those that it asks for.
#[derive(Clone, Copy)]
pub struct Owning<'a> {
    pub sees: &'a Sight,
    pub live: &'a LiveRegisters,
    pub shared: &'a [bool],
}

/// What a search for a state gives, where harts forget the registers that don't matter, and
/// accesses to own granules are quiet.
#[derive(Drop)]
pub struct OwnedSought {
    /// An order that leads to a state that passes: the fewest turns, and of those the least.
    pub order: Option<Vec<Op>>,
    /// How many states were kept, in which each hart is at its rest, and has forgotten.
    pub count: u32,
    /// Whether these are all, so that no order leads to another. It is found out only where none
    /// passes.
    pub complete: bool,
    /// Whether somebody touched a granule that isn't shared, so that accesses were quiet.
    pub owns: bool,
}

/// The nodes that a search kept, and the first of them that passes a test, if one does.
#[derive(Drop)]
struct First<'a> {
    nodes: Nodes<'a>,
    number: Option<u32>,
}

/// What a search with some shared granules gives; and these with more of them, if there are more
/// than were guessed. Then the search is to begin anew.
#[derive(Drop)]
struct Trial {
    sought: OwnedSought,
    more: Option<Vec<bool>>,
}

/// Searches in stages from the opening state of an image, which `core` has, until a node passes, or
/// for as many as the limit.
fn first_of<'a, T: StateTest, P: Progress>(
    alloc: Global,
    turns: Turns<'a>,
    core: &Core,
    limit: u32,
    test: &T,
    progress: &mut P,
) -> Result<First<'a>, AllocError>
    requires some { 0 < limit }
    requires opening { core.now.state ≡ opening_state turns.image.now }
    ensures nodes { IfOk result (λ first.
        AreNodes first.nodes.graph first.nodes.reached first.nodes.limit) }
    ensures graph { IfOk result (λ first. IsGraphOf turns.entry.image.now turns.entry.sees.now
        turns.entry.live.now turns.entry.shared.now first.nodes.graph) }
    ensures within { IfOk result (λ first. first.nodes.limit ≤ limit) }
    ensures first { IfOk result (λ first. IsFirstPassing
        (at first.nodes.graph first.nodes.reached) (length first.nodes.reached.nodes)
        (T.passing test.now) first.number) }
    ensures all { IfOk result (λ first. first.number ≡ None →
        (first.nodes.reached.complete ≡ true) ⊎ (first.nodes.limit ≡ limit)) }
{
    let stage = limit.min(FIRST_STAGE);
    let mut nodes = Nodes::search(alloc, turns, core, stage, progress)?;
    let mut number = nodes.first_passing(0, test);
    while number.is_none() && !nodes.reached.is_complete() && nodes.limit < limit {
        let stage = limit.min(nodes.limit.saturating_mul(STAGE_GROWTH));
        let looked_at = nodes.reached.len();
        nodes = nodes.search_on(alloc, stage, progress)?;
        number = nodes.first_passing(looked_at, test);
    }
    Ok(First { nodes, number })
}

/// Searches with these shared granules. Where no node passes, it looks which granules two harts
/// touched, and one of them stored to; and if all of these were shared, whether owners are
/// respected.
fn attempt<T: StateTest, P: Progress>(
    alloc: Global,
    search: &Search<'_>,
    matters: Owning<'_>,
    core: &Core,
    test: &T,
    progress: &mut P,
) -> Result<Trial, AllocError>
    requires search { IsSearchable (search_of search.now) }
    requires opening { core.now.state ≡ opening_state search.now.image.now }
    requires right { IsRight search.now.image.now.program matters.live.now }
    requires hidden { HidesForgotten matters.live.now (hides matters.sees.now) }
    requires passing { PassesForgotten matters.live.now (T.passing test.now) }
    requires unseen { KeepsPassing search.now.image.now [] (is_shared matters.shared.now)
        (hides matters.sees.now) (sized search.now.image.now (T.passing test.now)) }
    ensures answer { IfOk result (λ tried. IsOwnedSought (search_of search.now)
        matters.entry.sees.now matters.entry.live.now matters.entry.shared.now
        (T.passing test.now) (option_map (λ order. order.items) tried.sought.order)
        tried.sought.count tried.sought.complete) }
    ensures found { IfOk result (λ tried. IfSome tried.sought.order (λ order.
        (is_legal search.now.image.now (opening_state search.now.image.now) order.items ≡ true)
        × (T.passing test.now (replayed_state search.now.image.now order.items) ≡ true))) }
    ensures none { IfOk result (λ tried. tried.sought.order ≡ None →
        tried.sought.complete ≡ true →
        NonePasses search.now.image.now [] (T.passing test.now)) }
    ensures limit { IfOk result (λ tried. tried.sought.count ≤ search.now.limit) }
    ensures more { IfOk result (λ tried. IfSome tried.more (λ more.
        AreMoreShared matters.entry.shared.now more.items)) }
{
    let turns = Turns {
        image: search.image,
        sees: matters.sees,
        live: matters.live,
        shared: matters.shared,
    };
    let first = first_of(alloc, turns, core, search.limit, test, progress)?;
    let count = first.nodes.reached.len();
    let Some(number) = first.number else {
        let judged = first.nodes.into_judged(alloc, core)?;
        let sought = OwnedSought {
            order: None,
            count,
            complete: judged.complete,
            owns: judged.owns,
        };
        return Ok(Trial {
            sought,
            more: judged.more,
        });
    };
    let order = first.nodes.order_to(alloc, number)?;
    let sought = OwnedSought {
        order: Some(order),
        count,
        complete: false,
        owns: first.nodes.graph.machine().owns(),
    };
    Ok(Trial { sought, more: None })
}

/// The order that leads to the first state that passes a test, the opening state included. States
/// are told apart only by what matters to the question, and accesses to granules that one hart
/// alone touches, or that nobody writes, are quiet steps. At first only the granules are shared
/// that the question names; where no state passes, and the search met two harts at another granule
/// to which one stores, that granule is shared, too, and the search begins anew. Without sweeps,
/// and by turns. Where no state passes, as many as the limit were kept, or all. It searches in
/// stages, so that it keeps not many more states than up to the first that passes. Fails only when
/// out of memory, or of numbers past 2^32.
pub fn seek_owned<T: StateTest, P: Progress>(
    alloc: Global,
    search: &Search<'_>,
    matters: Owning<'_>,
    core: &Core,
    test: &T,
    progress: &mut P,
) -> Result<OwnedSought, AllocError>
    requires search { IsSearchable (search_of search.now) }
    requires turns { search.now.every_step ≡ false }
    requires unswept { search.now.sweeps.now ≡ [] }
    requires opening { core.now.state ≡ opening_state search.now.image.now }
    requires right { IsRight search.now.image.now.program matters.live.now }
    requires hidden { HidesForgotten matters.live.now (hides matters.sees.now) }
    requires passing { PassesForgotten matters.live.now (T.passing test.now) }
    requires unseen { KeepsPassingShared search.now.image.now matters.shared.now matters.sees.now
        (T.passing test.now) }
    ensures answer { IfOk result (λ sought. IsOwnedSought (search_of search.now)
        matters.entry.sees.now matters.entry.live.now matters.entry.shared.now
        (T.passing test.now) (option_map (λ order. order.items) sought.order) sought.count
        sought.complete) }
    ensures found { IfOk result (λ sought. IfSome sought.order (λ order.
        (is_legal search.now.image.now (opening_state search.now.image.now) order.items ≡ true)
        × (T.passing test.now (replayed_state search.now.image.now order.items) ≡ true))) }
    ensures none { IfOk result (λ sought. sought.order ≡ None → sought.complete ≡ true →
        NonePasses search.now.image.now [] (T.passing test.now)) }
    ensures limit { IfOk result (λ sought. sought.count ≤ search.now.limit) }
{
    let mut shared = Vec::from_slice(alloc, matters.shared)?;
    for _ in 0..core.view().ram.granule_count() {
        let guess = Owning {
            sees: matters.sees,
            live: matters.live,
            shared: shared.as_slice(),
        };
        let Trial { sought, more } = attempt(alloc, search, guess, core, test, progress)?;
        match more {
            Some(more) => shared = more,
            None => return Ok(sought),
        }
    }
    let guess = Owning {
        sees: matters.sees,
        live: matters.live,
        shared: shared.as_slice(),
    };
    let last = attempt(alloc, search, guess, core, test, progress)?;
    Ok(last.sought)
}
