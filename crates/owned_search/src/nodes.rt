//! The nodes that a search kept.

ghost use Rattle.std.specs.Prelude.{
  ◌≡◌,
  ℕ,
  ◌<◌,
  ◌≤◌,
  length,
  Some,
  IsSome,
  IfOk,
  IfSome,
  true,
};
ghost use Rattle.cheri_model.specs.runs.Machine.{MachineState, opening_state};
ghost use Rattle.explore_sights.specs.Sights.{hides};
ghost use Rattle.forgotten_turns.specs.ForgottenTurns.{HidesForgotten};
ghost use Rattle.live_registers.specs.LiveSets.{IsRight};
ghost use Rattle.owned_search.specs.Graphs.{IsGraphOf, start_in, state_in};
ghost use Rattle.owned_search.specs.Nodes.{
  AreAlike,
  AreAllOwned,
  AreGranuleNodes,
  AreNodes,
  IsFirstPassing,
  IsScanned,
  NonePassesBefore,
  at,
};
ghost use Rattle.owned_search.specs.Sought.{AreMoreShared, IsOwnedOrderTo};
ghost use Rattle.state_store.specs.Stores.{state_of};

use crate::graph::OwnedGraph;
use cheri_model::{Image, Op};
use cores::Core;
use explore_sights::Sight;
use granule_states::{GranuleGraph, opened_graph, orders_of};
use graph_search::{Progress, Reached, explore, explore_more};
use live_registers::LiveRegisters;
use state_store::State;
use states::{Room, StateTest};
use std::alloc::{AllocError, Global};

/// The turns of an image's harts, as far as they matter to a question, and for each granule whether
/// it is shared.
#[derive(Clone, Copy)]
pub(crate) struct Turns<'a> {
    pub image: &'a Image,
    pub sees: &'a Sight,
    pub live: &'a LiveRegisters,
    pub shared: &'a [bool],
}

/// The nodes that a search kept, numbered from 0 in the order of their witnesses: the first ones,
/// or all.
#[derive(Drop)]
pub(crate) struct Nodes<'a> {
    pub graph: OwnedGraph<'a>,
    pub reached: Reached,
    pub limit: u32,
}

/// What is found of the nodes of a search of which none passes.
#[derive(Drop)]
pub(crate) struct Judged {
    /// The shared granules with more of them, if there are more. Then a search is to begin anew.
    pub more: Option<Vec<bool>>,
    /// Whether the nodes are all, and all that the search met respects owners.
    pub complete: bool,
    /// Whether somebody touched a granule that isn't shared.
    pub owns: bool,
}

/// The graph of turns, and in it the row in which they begin, from the opening state of the image,
/// which `core` has.
fn opened<'a>(
    alloc: Global,
    turns: Turns<'a>,
    core: &Core,
) -> Result<(OwnedGraph<'a>, Vec<u32>), AllocError>
    requires { core.now.state ≡ opening_state turns.image.now }
    ensures graph { IfOk result (λ opened. IsGraphOf turns.entry.image.now turns.entry.sees.now
        turns.entry.live.now turns.entry.shared.now opened.0) }
    ensures row { IfOk result (λ opened.
        state_in opened.0 opened.1.items ≡ Some (start_in opened.0)) }
{
    let shared = Vec::from_slice(alloc, turns.shared)?;
    let (mut graph, mut row) = opened_graph(alloc, turns.image, turns.sees, shared, core)?;
    graph.settle_all(row.as_mut_slice())?;
    let mut graph = OwnedGraph::new(alloc, turns.live, graph);
    graph.forget_harts(row.as_mut_slice())?;
    Ok((graph, row))
}

impl<'a> Nodes<'a> {
    /// Searches from the opening state of an image, which `core` has: the first `limit` nodes, or
    /// all. Fails only when out of memory, or of numbers past 2^32.
    pub fn search<P: Progress>(
        alloc: Global,
        turns: Turns<'a>,
        core: &Core,
        limit: u32,
        progress: &mut P,
    ) -> Result<Nodes<'a>, AllocError>
        requires some { 0 < limit }
        requires opening { core.now.state ≡ opening_state turns.image.now }
        ensures nodes { IfOk result (λ nodes. AreNodes nodes.graph nodes.reached nodes.limit) }
        ensures graph { IfOk result (λ nodes. IsGraphOf turns.entry.image.now turns.entry.sees.now
            turns.entry.live.now turns.entry.shared.now nodes.graph) }
        ensures limit { IfOk result (λ nodes. nodes.limit ≡ limit) }
    {
        // Its clause says how many harts there are.
        let _granules = turns.image.granules();
        let (mut graph, start) = opened(alloc, turns, core)?;
        let reached = explore(alloc, &mut graph, start.as_slice(), limit, progress)?;
        Ok(Nodes {
            graph,
            reached,
            limit,
        })
    }

    /// Goes on with the search, with a limit that is no less. The nodes are first those of before,
    /// each under its number. Fails as the search does.
    pub fn search_on<P: Progress>(
        self,
        alloc: Global,
        limit: u32,
        progress: &mut P,
    ) -> Result<Nodes<'a>, AllocError>
        requires nodes { AreNodes self.graph self.reached self.limit }
        requires more { self.limit ≤ limit }
        ensures nodes { IfOk result (λ nodes. AreNodes nodes.graph nodes.reached nodes.limit) }
        ensures graph { IfOk result (λ nodes. AreAlike self.entry.graph nodes.graph) }
        ensures limit { IfOk result (λ nodes. nodes.limit ≡ limit) }
        ensures numbers { IfOk result (λ nodes. (i : ℕ) → i < length self.entry.reached.nodes →
            at nodes.graph nodes.reached i ≡ at self.entry.graph self.entry.reached i) }
    {
        let mut graph = self.graph;
        let reached = explore_more(alloc, &mut graph, self.reached, limit, progress)?;
        Ok(Nodes {
            graph,
            reached,
            limit,
        })
    }

    /// The first node that passes a test, where none before the node of this number does.
    pub fn first_passing<T: StateTest>(&self, from: u32, test: &T) -> Option<u32>
        requires nodes { AreNodes self.now.graph self.now.reached self.now.limit }
        requires before { NonePassesBefore (at self.now.graph self.now.reached)
            (T.passing test.now) from }
        ensures { IsFirstPassing (at self.now.graph self.now.reached)
            (length self.now.reached.nodes) (T.passing test.now) result }
    {
        for number in from..self.reached.len() {
            if self.passes(number, test) {
                return Some(number);
            }
        }
        None
    }

    /// Whether the state of the node with this number passes a test.
    fn passes<T: StateTest>(&self, number: u32, test: &T) -> bool
        requires nodes { AreNodes self.now.graph self.now.reached self.now.limit }
        requires there { number < length self.now.reached.nodes }
        ensures { (s : MachineState) → at self.now.graph self.now.reached number ≡ Some s →
            result ≡ T.passing test.now s }
    {
        test.passes(self.state(number, &mut Room::new()))
    }

    /// The state of the node with this number, whose row is written to `room`.
    fn state<'b>(&'b self, number: u32, room: &'b mut Room) -> State<'b>
        requires nodes { AreNodes self.now.graph self.now.reached self.now.limit }
        requires there { number < length self.now.reached.nodes }
        ensures state { at self.now.graph self.now.reached number
            ≡ state_of result.store.now result.row.now }
        ensures meant { IsSome (state_of result.store.now result.row.now) }
    {
        State {
            store: self.graph.store(),
            row: room.read(&self.reached, number),
        }
    }

    /// The order that tells the turns of the witness of the node with this number, step by step.
    /// Fails only when out of memory, or of numbers past 2^32.
    pub fn order_to(&self, alloc: Global, number: u32) -> Result<Vec<Op>, AllocError>
        requires nodes { AreNodes self.now.graph self.now.reached self.now.limit }
        requires right { IsRight self.now.graph.graph.graph.image.program self.now.graph.live }
        requires hidden { HidesForgotten self.now.graph.live (hides self.now.graph.graph.sight) }
        requires there { number < length self.now.reached.nodes }
        ensures { IfOk result (λ order. (s : MachineState) →
            at self.now.graph self.now.reached number ≡ Some s →
            IsOwnedOrderTo self.now.graph.graph.graph.image self.now.graph.graph.shared
            self.now.graph.graph.sight self.now.graph.live s order.items) }
    {
        let labels = self.reached.witness(alloc, number)?;
        let (order, _) = orders_of(alloc, self.graph.machine(), labels.as_slice(), &[])?;
        Ok(order)
    }

    /// Looks whether a search of whose nodes none passes must begin anew, and if not, whether it
    /// met all, as `judge` does.
    pub fn into_judged(self, alloc: Global, core: &Core) -> Result<Judged, AllocError>
        requires nodes { AreNodes self.graph self.reached self.limit }
        requires opening { core.now.state ≡ opening_state self.graph.graph.graph.image }
        ensures more { IfOk result (λ judged. IfSome judged.more (λ more.
            AreMoreShared self.entry.graph.graph.shared more.items)) }
        ensures all { IfOk result (λ judged. judged.complete ≡ true →
            AreAllOwned self.entry.graph self.entry.reached) }
    {
        let mut graph = self.graph.into_machine();
        judge(alloc, &mut graph, &self.reached, core)
    }
}

/// Looks whether a search of whose nodes none passes must begin anew, with more shared granules,
/// and if not, whether it met all. `core` has the opening state. Fails only when out of memory, or
/// of numbers past 2^32.
fn judge(
    alloc: Global,
    graph: &mut GranuleGraph,
    reached: &Reached,
    core: &Core,
) -> Result<Judged, AllocError>
    requires nodes { AreGranuleNodes graph.old reached.now }
    requires opening { core.now.state ≡ opening_state graph.old.graph.image }
    ensures more { IfOk result (λ judged. IfSome judged.more (λ more.
        AreMoreShared graph.old.shared more.items)) }
    ensures all { IfOk result (λ judged. judged.complete ≡ true → IsScanned graph.old reached.now) }
{
    graph.note_nodes(reached);
    let owns = graph.owns();
    let more = graph.more_shared(alloc)?;
    if more.is_some() {
        return Ok(Judged {
            more,
            complete: false,
            owns,
        });
    }
    let complete = is_whole(alloc, graph, reached, core)?;
    Ok(Judged {
        more: None,
        complete,
        owns,
    })
}

/// Whether a search reached all nodes, and each step that it met respects owners.
fn is_whole(
    alloc: Global,
    graph: &mut GranuleGraph,
    reached: &Reached,
    core: &Core,
) -> Result<bool, AllocError>
    requires nodes { AreGranuleNodes graph.old reached.now }
    requires opening { core.now.state ≡ opening_state graph.old.graph.image }
    ensures { IfOk result (λ whole. whole ≡ true → IsScanned graph.old reached.now) }
{
    // Its clause says how large memories are.
    let _store = graph.store();
    let view = core.view();
    let whole = graph.are_owned(alloc, view.harts, view.ram, reached)?;
    Ok(whole)
}
