//! Orders of steps: turns with each of their steps, as the machine takes them.

ghost use Rattle.std.specs.Prelude.{
  ◌≡◌,
  ◌<◌,
  ◌++◌,
  ◌∷◌,
  length,
  replicate,
  Some,
  IsSome,
  IfOk,
};
ghost use Rattle.cheri_model.specs.declared.operation.Op.TheVariants as operation;
ghost use Rattle.cheri_model.specs.runs.Machine.{MachineState, opening_state};
ghost use Rattle.explore_turns.specs.declared.quiet.TheConstants.{MAX_QUIET_STEPS};
ghost use Rattle.granule_states.specs.Graphs.{
  Learns,
  quiet_in,
  start_in,
  state_in,
  step_in,
  turn_in,
};
ghost use Rattle.granule_states.specs.Orders.{
  AreHarts,
  order_in,
  rests_in,
  stepped_in,
  steps_of,
  turns_in,
  way_in,
  ways_in,
};
ghost use Rattle.graph_search.specs.Walks.{IsWalk};
ghost use Rattle.own_granules.specs.Rests.{rest_one};

use crate::graph::{GranuleGraph, MOST_NUMBERS};
use crate::kept::opened_graph;
use cheri_model::{Image, Op};
use cores::Core;
use graph_search::Graph;
use std::alloc::{AllocError, Global};

/// Appends so many steps of a hart to an order.
fn push_steps(order: &mut Vec<Op>, hart: u8, count: u32) -> Result<(), AllocError>
    ensures { IfOk result (λ _. order.new.items
        ≡ order.old.items ++ replicate count (operation.Step hart)) }
{
    for _ in 0..count {
        order.push(Op::Step(hart))?;
    }
    Ok(())
}

impl GranuleGraph {
    /// Brings a hart to its rest in a row, and appends each quiet step that this takes to an order.
    fn walk_to_rest(
        &mut self,
        row: &mut [u32],
        hart: u32,
        order: &mut Vec<Op>,
    ) -> Result<(), AllocError>
        requires meant { IsSome (state_in self.old row.old) }
        requires hart { hart < length self.old.graph.image.harts }
        ensures learns { Learns self.old self.new }
        ensures same_room { length row.new ≡ length row.old }
        ensures rest { IfOk result (λ _. (s : MachineState) → state_in self.old row.old ≡ Some s →
            state_in self.new row.new
            ≡ Some (rest_one (step_in self.old) (quiet_in self.old) MAX_QUIET_STEPS hart s)) }
        ensures steps { IfOk result (λ _. (s : MachineState) → state_in self.old row.old ≡ Some s →
            order.new.items ≡ order.old.items ++ steps_of (way_in self.old hart s)) }
    {
        // Its clause says that there are at most 8 harts.
        let _granules = self.image().granules();
        let count = self.settle(row, hart)?;
        push_steps(order, hart as u8, count)
    }

    /// Brings all harts to their rest in a row, one after another, and appends their quiet steps.
    fn walk_to_rests(&mut self, row: &mut [u32], order: &mut Vec<Op>) -> Result<(), AllocError>
        requires meant { IsSome (state_in self.old row.old) }
        ensures learns { Learns self.old self.new }
        ensures rest { IfOk result (λ _. (s : MachineState) → state_in self.old row.old ≡ Some s →
            state_in self.new row.new ≡ Some (rests_in self.old s)) }
        ensures steps { IfOk result (λ _. (s : MachineState) → state_in self.old row.old ≡ Some s →
            order.new.items ≡ order.old.items
            ++ steps_of (ways_in self.old (length self.old.graph.image.harts) s)) }
    {
        for hart in 0..self.label_count() {
            self.walk_to_rest(row, hart, order)?;
        }
        Ok(())
    }

    /// Takes the step of a hart in a row. Where it has none, the row stays as it is.
    fn step_row(&mut self, row: &mut [u32], hart: u32) -> Result<(), AllocError>
        requires meant { IsSome (state_in self.old row.old) }
        requires hart { hart < length self.old.graph.image.harts }
        ensures learns { Learns self.old self.new }
        ensures state { IfOk result (λ _. (s : MachineState) → state_in self.old row.old ≡ Some s →
            state_in self.new row.new ≡ Some (stepped_in self.old s hart)) }
    {
        // Its clause says that a row has at most 9 numbers.
        let _granules = self.image().granules();
        let mut to = [0; MOST_NUMBERS];
        let to = &mut to[..row.len()];
        if !self.take_step(row, hart, to)? {
            return Ok(());
        }
        row.copy_from_slice(to);
        Ok(())
    }

    /// Takes the turn of a hart from a row, which goes along, and appends each of its steps.
    fn walk_turn(
        &mut self,
        row: &mut [u32],
        hart: u32,
        order: &mut Vec<Op>,
    ) -> Result<(), AllocError>
        requires meant { IsSome (state_in self.old row.old) }
        requires hart { hart < length self.old.graph.image.harts }
        ensures learns { Learns self.old self.new }
        ensures rest { IfOk result (λ _. (s : MachineState) → state_in self.old row.old ≡ Some s →
            state_in self.new row.new ≡ Some (rest_one (step_in self.old) (quiet_in self.old)
            MAX_QUIET_STEPS hart (stepped_in self.old s hart))) }
        ensures steps { IfOk result (λ _. (s : MachineState) → state_in self.old row.old ≡ Some s →
            order.new.items ≡ order.old.items
            ++ steps_of (hart ∷ way_in self.old hart (stepped_in self.old s hart))) }
    {
        // Its clause says that there are at most 8 harts.
        let _granules = self.image().granules();
        order.push(Op::Step(hart as u8))?;
        self.step_row(row, hart)?;
        self.walk_to_rest(row, hart, order)
    }

    /// Takes turns of these harts from a row, which goes along, and appends each of their steps.
    fn walk_turns(
        &mut self,
        row: &mut [u32],
        harts: &[u32],
        order: &mut Vec<Op>,
    ) -> Result<(), AllocError>
        requires meant { IsSome (state_in self.old row.old) }
        requires harts { AreHarts self.old harts.now }
        ensures learns { Learns self.old self.new }
        ensures meant { IfOk result (λ _. IsSome (state_in self.new row.new)) }
        ensures leads { IfOk result (λ _. (s t : MachineState) →
            state_in self.old row.old ≡ Some s → IsWalk (turn_in self.old) s harts.now t →
            state_in self.new row.new ≡ Some t) }
        ensures steps { IfOk result (λ _. (s : MachineState) → state_in self.old row.old ≡ Some s →
            order.new.items ≡ order.old.items ++ steps_of (turns_in self.old s harts.now)) }
    {
        for hart in harts {
            self.walk_turn(row, *hart, order)?;
        }
        Ok(())
    }

    /// The order of turns of the first harts, after the quiet steps that bring all harts of a row
    /// to their rest; and the steps of turns of the later ones after it. The row goes along.
    fn walk(
        &mut self,
        alloc: Global,
        row: &mut [u32],
        first: &[u32],
        later: &[u32],
    ) -> Result<(Vec<Op>, Vec<Op>), AllocError>
        requires meant { IsSome (state_in self.old row.old) }
        requires first { AreHarts self.old first.now }
        requires later { AreHarts self.old later.now }
        ensures first { IfOk result (λ orders. (s : MachineState) →
            state_in self.old row.old ≡ Some s → orders.0.items
            ≡ steps_of (ways_in self.old (length self.old.graph.image.harts) s
            ++ turns_in self.old (rests_in self.old s) first.now)) }
        ensures later { IfOk result (λ orders. (s t : MachineState) →
            state_in self.old row.old ≡ Some s →
            IsWalk (turn_in self.old) (rests_in self.old s) first.now t →
            orders.1.items ≡ steps_of (turns_in self.old t later.now)) }
    {
        let mut order = Vec::new(alloc);
        self.walk_to_rests(row, &mut order)?;
        self.walk_turns(row, first, &mut order)?;
        let mut more = Vec::new(alloc);
        self.walk_turns(row, later, &mut more)?;
        Ok((order, more))
    }
}

/// The machine of an image before its first step. Fails only when out of memory.
fn opened(alloc: Global, image: &Image) -> Result<Core, AllocError>
    ensures { IfOk result (λ core. core.state ≡ opening_state image.now) }
{
    match Core::boot(alloc, image.copy(alloc)?, 1) {
        Ok(core) => Ok(core),
        Err(_) => Err(AllocError),
    }
}

/// The order of turns of the first harts from the opening state of a graph's image, and the steps
/// of turns of the later ones after it. They are taken once more, in a graph of their own. Fails
/// only when out of memory, or of numbers.
pub fn orders_of(
    alloc: Global,
    graph: &GranuleGraph,
    first: &[u32],
    later: &[u32],
) -> Result<(Vec<Op>, Vec<Op>), AllocError>
    requires first { AreHarts graph.now first.now }
    requires later { AreHarts graph.now later.now }
    ensures first { IfOk result (λ orders.
        orders.0.items ≡ steps_of (order_in graph.now first.now)) }
    ensures later { IfOk result (λ orders. (s : MachineState) →
        IsWalk (turn_in graph.now) (start_in graph.now) first.now s →
        orders.1.items ≡ steps_of (turns_in graph.now s later.now)) }
{
    let core = opened(alloc, graph.image())?;
    let shared = Vec::from_slice(alloc, graph.shared())?;
    let (mut again, mut row) = opened_graph(alloc, graph.image(), graph.sight(), shared, &core)?;
    again.walk(alloc, row.as_mut_slice(), first, later)
}
