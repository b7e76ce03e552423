//! What a search kept.

ghost use Rattle.std.specs.Prelude.{
  ◌≡◌,
  ℕ,
  ◌+◌,
  ◌*◌,
  ◌<◌,
  ◌≤◌,
  length,
  slice_get,
  List,
  Some,
  None,
  IsSome,
  IfOk,
  true,
};
ghost use Rattle.cheri_model.specs.runs.Machine.{MachineState};
ghost use Rattle.schedules.specs.Schedules.{operation_of_label, AreLabelsOf};
ghost use Rattle.state_store.specs.Stores.{state_of};
ghost use Rattle.states.specs.Graphs.{state_in, turn_in};
ghost use Rattle.explore_turns.specs.Orders.{AreOfHarts, order_of_turns};
ghost use Rattle.explore_turns.specs.Turns.{turn_by, start_by};
ghost use Rattle.states.specs.Kept.{
  kept_of,
  at,
  count,
  IsKept,
  IsSearch,
  IsWitnessOrder,
  AreAllKept,
  AreWitnessTurns,
  KeepsNumbers,
};

use crate::graph::MachineGraph;
use crate::room::Room;
use cheri_model::{Image, Op};
use explore_sights::Sight;
use explore_turns::order_of_turns;
use graph_search::{Progress, Reached, explore, explore_more};
use schedules::SweepRange;
use state_store::State;
use std::alloc::{AllocError, Global};
use std::marker::Model;

/// The turns of an image's harts and of sweeps, as far as a question sees them.
#[derive(Drop)]
pub(crate) struct Turns {
    pub image: Image,
    pub sweeps: Vec<SweepRange>,
    pub sight: Sight,
}

/// The states that a search kept, numbered from 0 in the order of their witnesses: the first ones,
/// or all. In each of them all harts are at their rest. The witness of a state is the order of the
/// fewest turns that lead to it, and of those the least.
#[derive(Drop)]
pub struct Kept {
    image: Image,
    sweeps: Vec<SweepRange>,
    sight: Sight,
    graph: MachineGraph,
    reached: Reached,
    limit: u32,
}

impl Model for Kept {
    ghost use Rattle.states.specs.Kept.{KeptParts, kept_of, IsKept};

    ghost Value = { KeptParts };

    ghost view = { λ a. kept_of a.image a.sweeps.items a.sight a.graph.store a.reached a.limit };

    ghost invariant = { λ a. IsKept a.image a.sweeps.items a.sight a.graph a.reached a.limit };
}

/// The operation of a label.
#[tactic(auto, unfolding(schedules::specs::Schedules::operation_of_label))]
fn operation_of_label(image: &Image, sweeps: &[SweepRange], label: u32) -> Op
    requires { IsSome (operation_of_label image.now sweeps.now label) }
    ensures { operation_of_label image.now sweeps.now label ≡ Some result }
{
    // Its clause says that there are at most 8 harts.
    let _granules = image.granules();
    let harts = image.harts().len();
    let label = label as usize;
    if label < harts {
        return Op::Step(label as u8);
    }
    let range = sweeps[label - harts];
    Op::Sweep {
        lo: range.lo,
        hi: range.hi,
    }
}

impl Kept {
    /// Searches a graph with these turns from a node: the first `limit` states, or all.
    pub(crate) fn search<P: Progress>(
        alloc: Global,
        turns: Turns,
        mut graph: MachineGraph,
        start: &[u32],
        limit: u32,
        progress: &mut P,
    ) -> Result<Kept, AllocError>
        requires some { 0 < limit }
        requires edges { turn_in graph ≡ turn_by turns.image turns.sweeps.items turns.sight }
        requires harts { length graph.image.harts ≡ length turns.image.harts }
        requires opening { state_in graph start.now
            ≡ Some (start_by turns.image turns.sweeps.items turns.sight) }
        ensures image { IfOk result (λ kept. kept.image ≡ turns.image) }
        ensures sweeps { IfOk result (λ kept. kept.sweeps ≡ turns.sweeps.items) }
        ensures sight { IfOk result (λ kept. kept.sight ≡ turns.sight) }
        ensures limit { IfOk result (λ kept. kept.limit ≡ limit) }
    {
        let reached = explore(alloc, &mut graph, start, limit, progress)?;
        Ok(Kept {
            image: turns.image,
            sweeps: turns.sweeps,
            sight: turns.sight,
            graph,
            reached,
            limit,
        })
    }

    /// Goes on with the search, with a limit that is no less. What it keeps then is what a search
    /// with that limit keeps: first the states that it kept before, each under its number.
    pub fn search_on<P: Progress>(
        self,
        alloc: Global,
        limit: u32,
        progress: &mut P,
    ) -> Result<Kept, AllocError>
        requires { self.limit ≤ limit }
        ensures image { IfOk result (λ kept. kept.image ≡ self.image) }
        ensures sweeps { IfOk result (λ kept. kept.sweeps ≡ self.sweeps) }
        ensures sight { IfOk result (λ kept. kept.sight ≡ self.sight) }
        ensures limit { IfOk result (λ kept. kept.limit ≡ limit) }
        ensures numbers { IfOk result (KeepsNumbers self) }
    {
        let mut graph = self.graph;
        let reached = explore_more(alloc, &mut graph, self.reached, limit, progress)?;
        Ok(Kept {
            image: self.image,
            sweeps: self.sweeps,
            sight: self.sight,
            graph,
            reached,
            limit,
        })
    }

    /// How many states are kept.
    pub fn len(&self) -> u32
        ensures count { result ≡ count self.now }
        ensures search { IsSearch self.now }
    {
        self.reached.len()
    }

    /// Whether these are all states that any order leads to.
    pub fn is_complete(&self) -> bool
        ensures complete { result ≡ self.now.complete }
        ensures all { result ≡ true → AreAllKept self.now }
    {
        self.reached.is_complete()
    }

    /// The limit of the search.
    pub fn limit(&self) -> u32
        ensures { result ≡ self.now.limit }
    {
        self.limit
    }

    /// The image.
    pub fn image(&self) -> &Image
        ensures { result.now ≡ self.now.image }
    {
        &self.image
    }

    /// What the question sees.
    pub fn sight(&self) -> &Sight
        ensures { result.now ≡ self.now.sight }
    {
        &self.sight
    }

    /// The state of this number, whose row is written to `room`.
    pub fn state<'a>(&'a self, number: u32, room: &'a mut Room) -> State<'a>
        requires { number < count self.now }
        ensures state { at self.now number ≡ state_of result.store.now result.row.now }
        ensures meant { IsSome (state_of result.store.now result.row.now) }
        ensures harts { length result.row.now ≡ length self.now.image.harts + 1 }
        ensures granules { 16 * result.store.now.granules ≡ self.now.image.ram }
    {
        // Its clause says how many harts there are, and how large RAM may be.
        let _granules = self.image.granules();
        State {
            store: self.graph.store(),
            row: room.read(&self.reached, number),
        }
    }

    /// The witness of the state of this number: the order that leads to it. Fails only when out of
    /// memory.
    pub fn witness(&self, alloc: Global, number: u32) -> Result<Vec<Op>, AllocError>
        requires { number < count self.now }
        ensures { IfOk result (λ order. (s : MachineState) → at self.now number ≡ Some s →
            IsWitnessOrder self.now.image self.now.sweeps self.now.sight s order.items) }
    {
        let labels = self.reached.witness(alloc, number)?;
        let ops = self.operations(alloc, labels.as_slice())?;
        let sweeps = self.sweeps.as_slice();
        order_of_turns(alloc, &self.image, sweeps, &self.sight, ops.as_slice())
    }

    /// The operations with which the turns of a state's witness begin, without the quiet steps.
    /// Fails only when out of memory.
    pub fn witness_turns(&self, alloc: Global, number: u32) -> Result<Vec<Op>, AllocError>
        requires { number < count self.now }
        ensures { IfOk result (λ ops. (s : MachineState) → at self.now number ≡ Some s →
            AreWitnessTurns self.now.image self.now.sweeps self.now.sight s ops.items) }
    {
        let labels = self.reached.witness(alloc, number)?;
        self.operations(alloc, labels.as_slice())
    }

    /// The order of turns that begin with these operations: each of them, and all quiet steps.
    /// Fails only when out of memory.
    pub fn order_of(&self, alloc: Global, ops: &[Op]) -> Result<Vec<Op>, AllocError>
        requires { AreOfHarts self.now.image ops.now }
        ensures { IfOk result (λ order. order.items
            ≡ order_of_turns self.now.image self.now.sweeps self.now.sight ops.now) }
    {
        order_of_turns(alloc, &self.image, self.sweeps.as_slice(), &self.sight, ops)
    }

    /// The operations of labels, one by one. Fails only when out of memory.
    pub fn operations(&self, alloc: Global, labels: &[u32]) -> Result<Vec<Op>, AllocError>
        requires { (i l : ℕ) → slice_get labels.now i ≡ Some l →
            IsSome (operation_of_label self.now.image self.now.sweeps l) }
        ensures { IfOk result (λ order.
            AreLabelsOf self.now.image self.now.sweeps labels.now order.items) }
    {
        let mut order = Vec::with_capacity(alloc, labels.len())?;
        for label in labels {
            let sweeps = self.sweeps.as_slice();
            order.push(operation_of_label(&self.image, sweeps, *label))?;
        }
        Ok(order)
    }
}

/// A search taken apart: the image and the sweeps, the graph with their edges, what it reached, and
/// its limit.
#[derive(Drop)]
pub struct Searched {
    pub image: Image,
    pub sweeps: Vec<SweepRange>,
    pub sight: Sight,
    pub graph: MachineGraph,
    pub reached: Reached,
    pub limit: u32,
}

impl Kept {
    /// Takes it apart.
    pub fn into_parts(self) -> Searched
        ensures parts { kept_of result.image result.sweeps.items result.sight result.graph.store
            result.reached result.limit ≡ self }
        ensures kept { IsKept result.image result.sweeps.items result.sight result.graph
            result.reached result.limit }
    {
        Searched {
            image: self.image,
            sweeps: self.sweeps,
            sight: self.sight,
            graph: self.graph,
            reached: self.reached,
            limit: self.limit,
        }
    }

    /// Puts it together.
    pub fn from_parts(parts: Searched) -> Kept
        requires { IsKept parts.image parts.sweeps.items parts.sight parts.graph parts.reached
            parts.limit }
        ensures { result ≡ kept_of parts.image parts.sweeps.items parts.sight parts.graph.store
            parts.reached parts.limit }
    {
        Kept {
            image: parts.image,
            sweeps: parts.sweeps,
            sight: parts.sight,
            graph: parts.graph,
            reached: parts.reached,
            limit: parts.limit,
        }
    }
}
