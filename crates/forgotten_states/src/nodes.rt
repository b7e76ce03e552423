//! The nodes that a search kept.

ghost use Rattle.std.specs.Prelude.{
  ◌≡◌,
  ℕ,
  ◌*◌,
  ◌<◌,
  ◌≤◌,
  [],
  length,
  slice_get,
  Some,
  IsSome,
  IfOk,
};
ghost use Rattle.cheri_model.specs.runs.Machine.{MachineState, opening_state};
ghost use Rattle.explore_sights.specs.Sights.{hides};
ghost use Rattle.forgotten_states.specs.Nodes.{
  AreNodes,
  AreSomeNodes,
  IsFirstPassing,
  KeepsTurns,
  NonePassesBefore,
  at,
};
ghost use Rattle.forgotten_states.specs.Sought.{IsOrderTo};
ghost use Rattle.forgotten_states.specs.Surveys.{AreTurnsTo};
ghost use Rattle.forgotten_turns.specs.ForgottenTurns.{HidesForgotten};
ghost use Rattle.live_registers.specs.LiveSets.{IsRight};
ghost use Rattle.schedules.specs.Schedules.{AreLabelsOf};
ghost use Rattle.state_store.specs.Stores.{state_of};

use crate::graph::ForgottenGraph;
use crate::replaying::machine_labels;
use cheri_model::{Image, Op};
use cores::Core;
use explore_sights::Sight;
use explore_turns::order_of_turns;
use graph_search::{Progress, Reached, explore, explore_more};
use hart_order::HartGroups;
use live_registers::LiveRegisters;
use state_store::State;
use states::{MachineGraph, Room, StateTest};
use std::alloc::{AllocError, Global};
use tagged_mem::Ram;

/// The turns of an image's harts, as far as they matter to a question, and the group of each hart.
#[derive(Clone, Copy)]
pub(crate) struct Turns<'a> {
    pub image: &'a Image,
    pub sees: &'a Sight,
    pub live: &'a LiveRegisters,
    pub groups: HartGroups,
}

/// The nodes that a search kept, numbered from 0 in the order of their witnesses: the first ones, or
/// all.
#[derive(Drop)]
pub(crate) struct Nodes<'a> {
    pub graph: ForgottenGraph<'a>,
    pub reached: Reached,
    pub limit: u32,
}

/// The graph of turns. `ram` is a memory of the image's size.
pub(crate) fn graph_of<'a>(
    alloc: Global,
    turns: Turns<'a>,
    ram: &Ram,
) -> Result<ForgottenGraph<'a>, AllocError>
    requires size { 16 * length ram.now ≡ turns.image.now.ram }
    requires right { IsRight turns.image.now.program turns.live.now }
    requires hidden { HidesForgotten turns.live.now (hides turns.sees.now) }
    ensures live { IfOk result (λ graph. graph.live ≡ turns.entry.live.now) }
    ensures groups { IfOk result (λ graph. graph.groups ≡ turns.entry.groups) }
    ensures image { IfOk result (λ graph. graph.graph.image ≡ turns.entry.image.now) }
    ensures sweeps { IfOk result (λ graph. graph.graph.sweeps ≡ []) }
    ensures sight { IfOk result (λ graph. graph.graph.sight ≡ turns.entry.sees.now) }
    ensures granules { IfOk result (λ graph. graph.graph.store.granules ≡ length ram.now) }
{
    let Ok(ram) = ram.copy(alloc) else {
        return Err(AllocError);
    };
    let image = turns.image.copy(alloc)?;
    let sight = turns.sees.copy(alloc)?;
    let graph = MachineGraph::new(alloc, image, Vec::new(alloc), sight, ram)?;
    Ok(ForgottenGraph::new(alloc, turns.live, turns.groups, graph))
}

/// The operations of labels, each of which is a hart's number. Fails only when out of memory.
pub(crate) fn steps_of(alloc: Global, image: &Image, labels: &[u32]) -> Result<Vec<Op>, AllocError>
    requires { (i label : ℕ) → slice_get labels.now i ≡ Some label →
        label < length image.now.harts }
    ensures { IfOk result (λ ops. AreLabelsOf image.now [] labels.now ops.items) }
{
    // Its clause says that there are at most 8 harts.
    let _granules = image.granules();
    let mut ops = Vec::with_capacity(alloc, labels.len())?;
    for label in labels {
        ops.push(Op::Step(*label as u8))?;
    }
    Ok(ops)
}

impl<'a> Nodes<'a> {
    /// Searches from the opening state of an image, which `core` has: the first `limit` nodes, or
    /// all. Fails only when out of memory, or of numbers past 2^32.
    pub fn search<P: Progress>(
        alloc: Global,
        turns: Turns<'a>,
        core: &Core,
        limit: u32,
        progress: &mut P,
    ) -> Result<Nodes<'a>, AllocError>
        requires some { 0 < limit }
        requires opening { core.now.state ≡ opening_state turns.image.now }
        requires right { IsRight turns.image.now.program turns.live.now }
        requires hidden { HidesForgotten turns.live.now (hides turns.sees.now) }
        ensures nodes { IfOk result (λ nodes. AreNodes turns.entry.image.now turns.entry.sees.now
            turns.entry.live.now turns.entry.groups nodes.graph nodes.reached nodes.limit) }
        ensures limit { IfOk result (λ nodes. nodes.limit ≡ limit) }
    {
        // Its clause says how many harts there are, and how large RAM may be.
        let _granules = turns.image.granules();
        let view = core.view();
        let mut graph = graph_of(alloc, turns, view.ram)?;
        let start = graph.node(alloc, view.harts, view.ram)?;
        let reached = explore(alloc, &mut graph, start.as_slice(), limit, progress)?;
        Ok(Nodes {
            graph,
            reached,
            limit,
        })
    }

    /// Goes on with the search, with a limit that is no less. The nodes are first those of before,
    /// each under its number. Fails as the search does.
    pub fn search_on<P: Progress>(
        self,
        alloc: Global,
        limit: u32,
        progress: &mut P,
    ) -> Result<Nodes<'a>, AllocError>
        requires nodes { AreSomeNodes self.graph self.reached self.limit }
        requires more { self.limit ≤ limit }
        ensures nodes { IfOk result (λ nodes. KeepsTurns self.entry.graph self.entry.reached
            self.entry.limit nodes.graph nodes.reached nodes.limit) }
        ensures limit { IfOk result (λ nodes. nodes.limit ≡ limit) }
        ensures numbers { IfOk result (λ nodes. (i : ℕ) → i < length self.entry.reached.nodes →
            at nodes.graph nodes.reached i ≡ at self.entry.graph self.entry.reached i) }
    {
        let mut graph = self.graph;
        let reached = explore_more(alloc, &mut graph, self.reached, limit, progress)?;
        Ok(Nodes {
            graph,
            reached,
            limit,
        })
    }

    /// The first node that passes a test, where none before the node of this number does.
    pub fn first_passing<T: StateTest>(&self, from: u32, test: &T) -> Option<u32>
        requires nodes { AreSomeNodes self.now.graph self.now.reached self.now.limit }
        requires before { NonePassesBefore (at self.now.graph self.now.reached)
            (T.passing test.now) from }
        ensures { IsFirstPassing (at self.now.graph self.now.reached)
            (length self.now.reached.nodes) (T.passing test.now) result }
    {
        for number in from..self.reached.len() {
            if self.passes(number, test) {
                return Some(number);
            }
        }
        None
    }

    /// Whether the state of the node with this number passes a test.
    fn passes<T: StateTest>(&self, number: u32, test: &T) -> bool
        requires nodes { AreSomeNodes self.now.graph self.now.reached self.now.limit }
        requires there { number < length self.now.reached.nodes }
        ensures { (s : MachineState) → at self.now.graph self.now.reached number ≡ Some s →
            result ≡ T.passing test.now s }
    {
        test.passes(self.state(number, &mut Room::new()))
    }

    /// The state of the node with this number, whose row is written to `room`.
    pub fn state<'b>(&'b self, number: u32, room: &'b mut Room) -> State<'b>
        requires nodes { AreSomeNodes self.now.graph self.now.reached self.now.limit }
        requires there { number < length self.now.reached.nodes }
        ensures state { at self.now.graph self.now.reached number
            ≡ state_of result.store.now result.row.now }
        ensures meant { IsSome (state_of result.store.now result.row.now) }
    {
        State {
            store: self.graph.store(),
            row: room.read(&self.reached, number),
        }
    }

    /// The operations with which the turns of the witness of the node with this number begin, by
    /// the numbers that the harts have in the machine. Fails only when out of memory, or of numbers
    /// past 2^32.
    pub fn turns_to(
        &self,
        alloc: Global,
        turns: Turns<'_>,
        number: u32,
    ) -> Result<Vec<Op>, AllocError>
        requires nodes { AreNodes turns.image.now turns.sees.now turns.live.now turns.groups
            self.now.graph self.now.reached self.now.limit }
        requires right { IsRight turns.image.now.program turns.live.now }
        requires hidden { HidesForgotten turns.live.now (hides turns.sees.now) }
        requires there { number < length self.now.reached.nodes }
        ensures { IfOk result (λ ops. (s : MachineState) →
            at self.now.graph self.now.reached number ≡ Some s →
            AreTurnsTo turns.entry.image.now turns.entry.sees.now turns.entry.live.now
            turns.entry.groups s ops.items) }
    {
        let labels = self.reached.witness(alloc, number)?;
        let own = machine_labels(alloc, turns, labels)?;
        steps_of(alloc, turns.image, own.as_slice())
    }

    /// The order that tells the turns of the witness of the node with this number, step by step.
    /// Fails as `turns_to` does.
    pub fn order_to(
        &self,
        alloc: Global,
        turns: Turns<'_>,
        number: u32,
    ) -> Result<Vec<Op>, AllocError>
        requires nodes { AreNodes turns.image.now turns.sees.now turns.live.now turns.groups
            self.now.graph self.now.reached self.now.limit }
        requires right { IsRight turns.image.now.program turns.live.now }
        requires hidden { HidesForgotten turns.live.now (hides turns.sees.now) }
        requires there { number < length self.now.reached.nodes }
        ensures { IfOk result (λ order. (s : MachineState) →
            at self.now.graph self.now.reached number ≡ Some s →
            IsOrderTo turns.entry.image.now turns.entry.sees.now turns.entry.live.now
            turns.entry.groups s order.items) }
    {
        let ops = self.turns_to(alloc, turns, number)?;
        order_of_turns(alloc, turns.image, &[], turns.sees, ops.as_slice())
    }
}
