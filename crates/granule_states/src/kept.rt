//! The states that a search kept in which accesses to own granules are quiet.

ghost use Rattle.std.specs.Prelude.{
  ◌≡◌,
  ℕ,
  ◌*◌,
  ◌<◌,
  [],
  length,
  Some,
  IsSome,
  IfOk,
  false,
  true,
};
ghost use Rattle.cheri_model.specs.runs.Machine.{MachineState, opening_state};
ghost use Rattle.granule_states.specs.Graphs.{state_in, turn_in};
ghost use Rattle.granule_states.specs.Orders.{IsOrderTo, steps_of, turns_in};
ghost use Rattle.granule_states.specs.Owned.{
  AreAllKept,
  AreEndsKept,
  AreSomeOwned,
  AreSound,
  IsSame,
  IsSearch,
  IsSearchOf,
  at,
  count,
};
ghost use Rattle.loop_search.specs.Verdicts.{IsFoundLoop, IsVerdict};
ghost use Rattle.state_store.specs.Stores.{state_of};
ghost use Rattle.states.specs.Searches.{IsSearchable, search_of};

use crate::graph::GranuleGraph;
use crate::walks::orders_of;
use cheri_model::{Image, Op};
use cores::Core;
use explore_sights::Sight;
use graph_search::{Progress, Reached, explore};
use loop_search::{FoundLoop, Verdict, search_loops};
use state_store::State;
use states::{Room, Search};
use std::alloc::{AllocError, Global};
use std::marker::Model;
use tagged_mem::Ram;

/// The states that a search kept, numbered from 0 in the order of their witnesses: the first ones,
/// or all. In each of them all harts are at their rest, where accesses to granules that aren't
/// shared are quiet.
#[derive(Drop)]
pub struct OwnedStates {
    graph: GranuleGraph,
    reached: Reached,
    limit: u32,
    /// Whether these are all, and it was found that all which the search met respects owners.
    owned: bool,
}

impl Model for OwnedStates {
    ghost use Rattle.granule_states.specs.Owned.{IsOwned, OwnedParts, owned_of};

    ghost Value = { OwnedParts };

    ghost view = { λ a. owned_of a.graph a.reached a.limit a.owned };

    ghost invariant = { λ a. IsOwned a.graph a.reached a.limit a.owned };
}

/// The states that a search kept, and what was found of their loops.
#[derive(Drop)]
pub struct Looped {
    pub kept: OwnedStates,
    pub verdict: Verdict,
}

/// The graph of turns, where these granules are shared. `ram` is a memory of the image's size.
fn graph_of(
    alloc: Global,
    image: &Image,
    sees: &Sight,
    shared: Vec<bool>,
    ram: &Ram,
) -> Result<GranuleGraph, AllocError>
    requires size { 16 * length ram.now ≡ image.now.ram }
    ensures image { IfOk result (λ graph. graph.graph.image ≡ image.now) }
    ensures granules { IfOk result (λ graph. graph.graph.store.granules ≡ length ram.now) }
    ensures sight { IfOk result (λ graph. graph.sight ≡ sees.now) }
    ensures shared { IfOk result (λ graph. graph.shared ≡ shared.items) }
{
    let Ok(ram) = ram.copy(alloc) else {
        return Err(AllocError);
    };
    let image = image.copy(alloc)?;
    let sight = sees.copy(alloc)?;
    GranuleGraph::new(alloc, image, sight, shared, ram)
}

/// The graph of turns, where these granules are shared, and in it the row of the opening state of
/// an image, which `core` has.
pub fn opened_graph(
    alloc: Global,
    image: &Image,
    sees: &Sight,
    shared: Vec<bool>,
    core: &Core,
) -> Result<(GranuleGraph, Vec<u32>), AllocError>
    requires { core.now.state ≡ opening_state image.now }
    ensures image { IfOk result (λ opened. opened.0.graph.image ≡ image.now) }
    ensures sight { IfOk result (λ opened. opened.0.sight ≡ sees.now) }
    ensures shared { IfOk result (λ opened. opened.0.shared ≡ shared.items) }
    ensures row { IfOk result (λ opened.
        state_in opened.0 opened.1.items ≡ Some (opening_state image.now)) }
{
    // Its clause says how many harts there are, and how large RAM may be.
    let _granules = image.granules();
    let view = core.view();
    let mut graph = graph_of(alloc, image, sees, shared, view.ram)?;
    let row = graph.node(alloc, view.harts, view.ram)?;
    Ok((graph, row))
}

/// Searches with these shared granules.
fn search_graph<P: Progress>(
    alloc: Global,
    search: &Search<'_>,
    sees: &Sight,
    core: &Core,
    shared: Vec<bool>,
    progress: &mut P,
) -> Result<(GranuleGraph, Reached), AllocError>
    requires search { IsSearchable (search_of search.now) }
    requires opening { core.now.state ≡ opening_state search.now.image.now }
    ensures { IfOk result (λ searched. IsSearchOf search.now.image.now sees.now searched.0
        searched.1 search.now.limit) }
{
    // Its clause says that there are at most 8 harts.
    let _granules = search.image.granules();
    let (mut graph, mut start) = opened_graph(alloc, search.image, sees, shared, core)?;
    graph.settle_all(start.as_mut_slice())?;
    let limit = search.limit;
    let reached = explore(alloc, &mut graph, start.as_slice(), limit, progress)?;
    Ok((graph, reached))
}

/// Searches with these shared granules, and then looks whether all that was met respects owners.
fn search_with<P: Progress>(
    alloc: Global,
    search: &Search<'_>,
    sees: &Sight,
    core: &Core,
    shared: Vec<bool>,
    progress: &mut P,
) -> Result<OwnedStates, AllocError>
    requires search { IsSearchable (search_of search.now) }
    requires opening { core.now.state ≡ opening_state search.now.image.now }
    ensures image { IfOk result (λ kept. kept.graph.graph.image ≡ search.now.image.now) }
    ensures sight { IfOk result (λ kept. kept.graph.sight ≡ sees.now) }
    ensures limit { IfOk result (λ kept. kept.limit ≡ search.now.limit) }
{
    // Its clause says how many harts there are, and how large RAM may be.
    let _granules = search.image.granules();
    let (mut graph, reached) = search_graph(alloc, search, sees, core, shared, progress)?;
    graph.note_nodes(&reached);
    // Its clause says how large memories are.
    let _store = graph.store();
    let view = core.view();
    let owned = graph.are_owned(alloc, view.harts, view.ram, &reached)?;
    Ok(OwnedStates {
        graph,
        reached,
        limit: search.limit,
        owned,
    })
}

/// The states that any order of steps leads to from a search's opening state, which `core` has:
/// the first ones in the order of their witnesses, or all, told apart as far as a question that
/// sees this can tell. Accesses to granules that one hart alone touches, or that nobody writes, are
/// quiet steps: at first all granules are taken for such ones, and where the search meets two harts
/// at a granule to which one stores, that granule is shared, and the search begins anew. Without
/// sweeps, and by turns. Fails only when out of memory, or of numbers past 2^32.
pub fn search_owned<P: Progress>(
    alloc: Global,
    search: &Search<'_>,
    sees: &Sight,
    core: &Core,
    progress: &mut P,
) -> Result<OwnedStates, AllocError>
    requires search { IsSearchable (search_of search.now) }
    requires turns { search.now.every_step ≡ false }
    requires unswept { search.now.sweeps.now ≡ [] }
    requires opening { core.now.state ≡ opening_state search.now.image.now }
    ensures image { IfOk result (λ kept. kept.graph.graph.image ≡ search.now.image.now) }
    ensures sight { IfOk result (λ kept. kept.graph.sight ≡ sees.now) }
    ensures limit { IfOk result (λ kept. kept.limit ≡ search.now.limit) }
{
    let granules = core.view().ram.granule_count();
    let mut shared = Vec::new(alloc);
    shared.resize(granules, false)?;
    for _ in 0..granules {
        let kept = search_with(alloc, search, sees, core, shared, progress)?;
        match kept.graph.more_shared(alloc)? {
            Some(more) => shared = more,
            None => return Ok(kept),
        }
    }
    search_with(alloc, search, sees, core, shared, progress)
}

impl OwnedStates {
    /// How many states are kept. The order in which they stand is that of their witnesses.
    pub fn len(&self) -> u32
        ensures count { result ≡ count self.now }
        ensures search { IsSearch self.now }
        ensures sound { AreSound self.now }
    {
        self.reached.len()
    }

    /// Whether these are all states that any order leads to.
    pub fn is_complete(&self) -> bool
        ensures complete { result ≡ self.now.complete }
        ensures all { result ≡ true → AreAllKept self.now }
        ensures ends { result ≡ true → AreEndsKept self.now }
        ensures finished { result ≡ true → self.now.finished ≡ true }
        ensures owned { result ≡ true → AreSomeOwned self.now.graph }
    {
        self.owned
    }

    /// The image.
    pub fn image(&self) -> &Image
        ensures { result.now ≡ self.now.graph.graph.image }
    {
        self.graph.image()
    }

    /// For each granule whether it is shared.
    pub fn shared(&self) -> &[bool]
        ensures { result.now ≡ self.now.graph.shared }
    {
        self.graph.shared()
    }

    /// The state of this number, whose row is written to `room`.
    pub fn state<'a>(&'a self, number: u32, room: &'a mut Room) -> State<'a>
        requires { number < count self.now }
        ensures state { at self.now number ≡ state_of result.store.now result.row.now }
        ensures meant { IsSome (state_of result.store.now result.row.now) }
    {
        State {
            store: self.graph.store(),
            row: room.read(&self.reached, number),
        }
    }

    /// The order that leads to the state of this number: the turns of its witness, with each of
    /// their steps. Fails only when out of memory, or of numbers past 2^32.
    pub fn order_to(&self, alloc: Global, number: u32) -> Result<Vec<Op>, AllocError>
        requires { number < count self.now }
        ensures { IfOk result (λ order. (s : MachineState) → at self.now number ≡ Some s →
            IsOrderTo self.now.graph s order.items) }
    {
        let labels = self.reached.witness(alloc, number)?;
        let (order, _) = orders_of(alloc, &self.graph, labels.as_slice(), &[])?;
        Ok(order)
    }

    /// Looks for loops of the kept states, by turns. The states are given back as they were; what
    /// was learned of single steps is kept. Fails only when out of memory, or of numbers past 2^32,
    /// and then drops them.
    pub fn loops(self, alloc: Global) -> Result<Looped, AllocError>
        ensures verdict { IfOk result (λ looped. IsVerdict (turn_in looped.kept.graph)
            (length looped.kept.graph.graph.image.harts) (at looped.kept) looped.kept.finished
            looped.verdict) }
        ensures same { IfOk result (λ looped. IsSame self looped.kept) }
    {
        // Its clause says that there are at most 8 harts.
        let _granules = self.graph.image().granules();
        let harts = self.graph.image().harts().len() as u32;
        let limit = self.limit;
        let owned = self.owned;
        let reached = self.reached;
        let mut graph = self.graph;
        let verdict = search_loops(alloc, &mut graph, &reached, harts)?;
        let kept = OwnedStates {
            graph,
            reached,
            limit,
            owned,
        };
        Ok(Looped { kept, verdict })
    }

    /// The order that leads to the state of a loop that was found, and the steps of the turns of
    /// that loop.
    /// Fails only when out of memory, or of numbers past 2^32.
    pub fn lasso(&self, alloc: Global, found: &FoundLoop) -> Result<(Vec<Op>, Vec<Op>), AllocError>
        requires { IsFoundLoop (turn_in self.now.graph) (length self.now.graph.graph.image.harts)
            (at self.now) found.now }
        ensures order { IfOk result (λ orders. (s : MachineState) →
            at self.now found.now.node ≡ Some s → IsOrderTo self.now.graph s orders.0.items) }
        ensures cycle { IfOk result (λ orders. (s : MachineState) →
            at self.now found.now.node ≡ Some s →
            orders.1.items ≡ steps_of (turns_in self.now.graph s found.now.labels.items)) }
    {
        let first = self.reached.witness(alloc, found.node)?;
        orders_of(
            alloc,
            &self.graph,
            first.as_slice(),
            found.labels.as_slice(),
        )
    }
}
