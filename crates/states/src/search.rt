//! Searches.

ghost use Rattle.std.specs.Prelude.{◌≡◌, ℕ, ◌*◌, ◌≤◌, length, None, IfOk, true};
ghost use Rattle.cheri_model.specs.runs.Machine.{opening_state};
ghost use Rattle.explore_sights.specs.Sights.{hides, sight_of};
ghost use Rattle.explore_turns.specs.Turns.{KeepsPassing};
ghost use Rattle.states.specs.Kept.{
  IsFirstPassing,
  IsKeptOf,
  IsWhole,
  NonePasses,
  NonePassesBefore,
};
ghost use Rattle.states.specs.Searches.{AreTurnsOf, IsSearchable, search_of};

use crate::graph::{MAX_SWEEPS, MachineGraph};
use crate::kept::{Kept, Turns};
use crate::passing::StateTest;
use crate::room::Room;
use cheri_model::Image;
use cores::Core;
use explore_sights::Sight;
use graph_search::Progress;
use schedules::SweepRange;
use std::alloc::{AllocError, Global};
use tagged_mem::Ram;

/// What is searched: the states that an image reaches by steps of its harts and by these sweeps,
/// told apart after every step, or only after those that the question sees. At most `limit` of
/// them are kept.
#[derive(Clone, Copy)]
pub struct Search<'a> {
    pub image: &'a Image,
    pub sweeps: &'a [SweepRange],
    pub every_step: bool,
    pub limit: u32,
}

/// How many states a search for a state keeps first, before it looks at them.
const FIRST_STAGE: u32 = 1 << 14;

/// How many times as many it keeps in the next stage.
const STAGE_GROWTH: u32 = 8;

/// The kept states, and the first of them that passes a test, if one does.
#[derive(Drop)]
pub struct Found {
    pub kept: Kept,
    pub state: Option<u32>,
}

/// The same memory.
fn copied_ram(alloc: Global, ram: &Ram) -> Result<Ram, AllocError>
    ensures { IfOk result (λ copy. copy ≡ ram.now) }
{
    ram.copy(alloc).map_err(|_| AllocError)
}

/// What a search sees: every step, where that is asked for, else what the question sees. Fails only
/// when out of memory.
fn sight_of(alloc: Global, every_step: bool, sees: &Sight) -> Result<Sight, AllocError>
    ensures { IfOk result (λ sight. sight ≡ sight_of every_step sees.now) }
{
    if every_step {
        return Ok(Sight::EveryStep);
    }
    sees.copy(alloc)
}

/// The turns of a search, for a question that sees this.
fn turns_of(alloc: Global, search: &Search<'_>, sees: &Sight) -> Result<Turns, AllocError>
    ensures { IfOk result (λ turns. AreTurnsOf (search_of search.now) sees.now
        turns.image turns.sweeps.items turns.sight) }
{
    let image = search.image.copy(alloc)?;
    let sweeps = Vec::from_slice(alloc, search.sweeps)?;
    let sight = sight_of(alloc, search.every_step, sees)?;
    Ok(Turns {
        image,
        sweeps,
        sight,
    })
}

/// Their graph. `ram` is a memory of the image's size.
fn graph_of_turns(
    alloc: Global,
    search: &Search<'_>,
    sees: &Sight,
    ram: &Ram,
) -> Result<MachineGraph, AllocError>
    requires few { length search.now.sweeps.now ≤ MAX_SWEEPS }
    requires size { 16 * length ram.now ≡ search.now.image.now.ram }
    ensures turns { IfOk result (λ graph. AreTurnsOf (search_of search.now) sees.now
        graph.image graph.sweeps graph.sight) }
    ensures granules { IfOk result (λ graph. graph.store.granules ≡ length ram.now) }
{
    let ram = copied_ram(alloc, ram)?;
    let turns = turns_of(alloc, search, sees)?;
    MachineGraph::new(alloc, turns.image, turns.sweeps, turns.sight, ram)
}

/// The states that any order of steps and of a search's sweeps leads to from its image's opening
/// state, which `core` has: the first ones in the order of their witnesses, or all. They are told
/// apart as far as a question that sees this can tell. Fails only when out of memory, or of numbers
/// past 2^32.
pub fn search_from<P: Progress>(
    alloc: Global,
    search: &Search<'_>,
    sees: &Sight,
    core: &Core,
    progress: &mut P,
) -> Result<Kept, AllocError>
    requires search { IsSearchable (search_of search.now) }
    requires opening { core.now.state ≡ opening_state search.now.image.now }
    ensures kept_of { IfOk result (IsKeptOf (search_of search.now) sees.now) }
    ensures limit { IfOk result (λ kept. kept.limit ≡ search.now.limit) }
{
    // Its clause says how large RAM may be.
    let _granules = search.image.granules();
    let view = core.view();
    let mut graph = graph_of_turns(alloc, search, sees, view.ram)?;
    let start = graph.node(alloc, view.harts, view.ram)?;
    let turns = turns_of(alloc, search, sees)?;
    Kept::search(
        alloc,
        turns,
        graph,
        start.as_slice(),
        search.limit,
        progress,
    )
}

/// The first of these states that passes a test, the opening state included, and none after it
/// looked at. Where none passes, the kept states are those of `search_from`. It searches in stages,
/// so that it keeps not many more states than up to the first that passes. Each state is looked at
/// once.
pub fn find_from<T: StateTest, P: Progress>(
    alloc: Global,
    search: &Search<'_>,
    sees: &Sight,
    core: &Core,
    test: &T,
    progress: &mut P,
) -> Result<Found, AllocError>
    requires search { IsSearchable (search_of search.now) }
    requires opening { core.now.state ≡ opening_state search.now.image.now }
    requires unseen { KeepsPassing (hides (sight_of search.now.every_step sees.now))
        (T.passing test.now) }
    ensures kept_of { IfOk result (λ found.
        IsKeptOf (search_of search.now) sees.now found.kept) }
    ensures limit { IfOk result (λ found. found.kept.limit ≤ search.now.limit) }
    ensures first { IfOk result (λ found.
        IsFirstPassing found.kept (T.passing test.now) found.state) }
    ensures all { IfOk result (λ found. found.state ≡ None →
        IsWhole found.kept search.now.limit) }
    ensures none { IfOk result (λ found. found.state ≡ None → found.kept.complete ≡ true →
        NonePasses search.now.image.now search.now.sweeps.now (T.passing test.now)) }
{
    let limit = search.limit;
    let first = Search {
        image: search.image,
        sweeps: search.sweeps,
        every_step: search.every_step,
        limit: limit.min(FIRST_STAGE),
    };
    let mut kept = search_from(alloc, &first, sees, core, progress)?;
    let mut state = first_passing(&kept, 0, test);
    while state.is_none() && !kept.is_complete() && kept.limit() < limit {
        let stage = limit.min(kept.limit().saturating_mul(STAGE_GROWTH));
        let looked_at = kept.len();
        kept = kept.search_on(alloc, stage, progress)?;
        state = first_passing(&kept, looked_at, test);
    }
    // Its clause says that these are the states of a search.
    let _count = kept.len();
    Ok(Found { kept, state })
}

/// The first kept state that passes a test, where none before the state of this number does.
fn first_passing<T: StateTest>(kept: &Kept, from: u32, test: &T) -> Option<u32>
    requires { NonePassesBefore kept.now (T.passing test.now) from }
    ensures { IsFirstPassing kept.now (T.passing test.now) result }
{
    for number in from..kept.len() {
        if test.passes(kept.state(number, &mut Room::new())) {
            return Some(number);
        }
    }
    None
}
