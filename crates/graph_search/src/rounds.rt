//! Rounds: many nodes of which steps are made together, and whose edges are followed at once.

ghost use Rattle.std.specs.Prelude.{
  ◌≡◌,
  ℕ,
  ◌+◌,
  ◌*◌,
  ◌^◌,
  ◌<◌,
  ◌≤◌,
  [],
  ◌++◌,
  List,
  length,
  Some,
  IsSome,
  IfOk,
  slice_get,
};
ghost use Rattle.interner.specs.Rows.{row_at};
ghost use Rattle.graph_search.specs.Rounds.{AreRead, AreRoundSteps, HasOneNode, edges_at};

use crate::edges::Edge;
use crate::graphs::Graph;
use graph_nodes::Nodes;
use std::alloc::{AllocError, Global};

/// The most nodes of a round.
pub const MOST: u32 = 32_768;

/// Nodes that follow each other, and a step along each edge of each.
#[derive(Drop)]
pub struct Round {
    /// The number of the first node.
    pub first: u32,
    /// How many nodes there are.
    pub count: u32,
    /// Their rows. There is room for the most nodes, as behind `rows` for their steps.
    pub nodes: Vec<u32>,
    /// For each node and each label, whether there is such an edge.
    pub leads: Vec<bool>,
    /// And a row, which is the node to which the edge leads, if there is one.
    pub rows: Vec<u32>,
}

/// Where the row of this number begins, of so many rows of numbers.
fn row_start(number: usize, count: usize, width: usize) -> usize
    requires there { number < count }
    requires room { count * width < 2 ^ 64 }
    ensures start { result ≡ number * width }
    ensures end { result + width ≤ count * width }
{
    number * width
}

impl Round {
    /// A round of no nodes, with room for nodes of so many numbers, and for their steps.
    pub fn new(alloc: Global, width: usize, labels: u32) -> Result<Round, AllocError>
        ensures none { IfOk result (λ round. round.count ≡ 0) }
        ensures no_steps { IfOk result (λ round. round.leads.items ≡ []) }
        ensures nodes { IfOk result (λ round. length round.nodes.items ≡ 32768 * width) }
        ensures rows { IfOk result (λ round.
            length round.rows.items ≡ 32768 * labels * width) }
    {
        let steps = (MOST as usize)
            .checked_mul(labels as usize)
            .ok_or(AllocError)?;
        let room = (MOST as usize).checked_mul(width).ok_or(AllocError)?;
        let step_room = steps.checked_mul(width).ok_or(AllocError)?;
        let mut nodes = Vec::new(alloc);
        nodes.resize(room, 0)?;
        let mut rows = Vec::new(alloc);
        rows.resize(step_room, 0)?;
        Ok(Round {
            first: 0,
            count: 0,
            nodes,
            leads: Vec::with_capacity(alloc, steps)?,
            rows,
        })
    }

    /// Takes so many nodes, from this number on, in place of those before. No steps are made yet.
    pub fn read(&mut self, nodes: &Nodes, first: u32, count: u32)
        requires few { count ≤ 32768 }
        requires there { first + count ≤ length nodes.now.rows }
        requires room { length self.old.nodes.items ≡ 32768 * nodes.now.width }
        ensures first { self.new.first ≡ first }
        ensures count { self.new.count ≡ count }
        ensures read { AreRead nodes.now.width nodes.now.rows first count self.new.nodes.items }
        ensures no_steps { self.new.leads.items ≡ [] }
        ensures same_nodes { length self.new.nodes.items ≡ length self.old.nodes.items }
        ensures same_rows { length self.new.rows.items ≡ length self.old.rows.items }
    {
        self.first = first;
        self.count = count;
        self.leads.clear();
        let width = nodes.width();
        // Its clause says that there are fewer than 2^32.
        let _nodes = nodes.len();
        for place in 0..count {
            let start = row_start(place as usize, MOST as usize, width);
            let row = &mut self.nodes.as_mut_slice()[start..start + width];
            if !nodes.read(first + place, row) {
                unreachable!()
            }
        }
    }

    /// Makes a step along each edge of each node. Fails only when out of memory, or where the
    /// graph's step does.
    pub fn step<G: Graph>(&mut self, graph: &mut G) -> Result<(), AllocError>
        requires few { self.old.count ≤ 32768 }
        requires some { 0 < G.label_count graph.old }
        requires none { self.old.leads.items ≡ [] }
        requires meant { (i : ℕ) → i < self.old.count →
            IsSome (G.meaning graph.old (row_at (G.width graph.old) self.old.nodes.items i)) }
        requires nodes { length self.old.nodes.items ≡ 32768 * G.width graph.old }
        requires rows { length self.old.rows.items
            ≡ 32768 * G.label_count graph.old * G.width graph.old }
        ensures same_graph { G.next graph.new ≡ G.next graph.old }
        ensures same_labels { G.label_count graph.new ≡ G.label_count graph.old }
        ensures same_width { G.width graph.new ≡ G.width graph.old }
        ensures kept { (n : List ℕ) (s : G.State) → G.meaning graph.old n ≡ Some s →
            G.meaning graph.new n ≡ Some s }
        ensures one_node { HasOneNode (G.meaning graph.old) → HasOneNode (G.meaning graph.new) }
        ensures one_then { IfOk result (λ _. 0 < self.new.count →
            HasOneNode (G.meaning graph.new)) }
        ensures same_first { self.new.first ≡ self.old.first }
        ensures same_count { self.new.count ≡ self.old.count }
        ensures same_nodes { self.new.nodes.items ≡ self.old.nodes.items }
        ensures same_rows { length self.new.rows.items ≡ length self.old.rows.items }
        ensures count { IfOk result (λ _. length self.new.leads.items
            ≡ self.new.count * G.label_count graph.new) }
        ensures steps { IfOk result (λ _. AreRoundSteps (G.next graph.new) (G.meaning graph.old)
            (G.meaning graph.new) (G.width graph.new) (G.label_count graph.new) self.new.nodes.items
            self.new.leads.items self.new.rows.items) }
    {
        let width = graph.width();
        let labels = graph.label_count();
        let steps = MOST as usize * labels as usize;
        let mut place = 0;
        let mut label = 0;
        while place < self.count {
            let start = row_start(place as usize, MOST as usize, width);
            let node = &self.nodes.as_slice()[start..start + width];
            let start = row_start(self.leads.len(), steps, width);
            let to = &mut self.rows.as_mut_slice()[start..start + width];
            let leads = graph.step(node, label, to)?;
            self.leads.push(leads)?;
            label += 1;
            if label == labels {
                label = 0;
                place += 1;
            }
        }
        Ok(())
    }

    /// Adds the edges that led to new nodes, as `fresh` tells of each step.
    pub fn follow(
        &self,
        labels: u32,
        fresh: &[bool],
        edges: &mut Vec<Edge>,
    ) -> Result<(), AllocError>
        requires some { 0 < labels }
        requires few { self.now.first + length fresh.now < 2 ^ 32 }
        ensures { IfOk result (λ _. edges.new.items
            ≡ edges.old.items ++ edges_at labels self.now.first 0 fresh.now) }
    {
        let mut from = self.first;
        let mut label = 0;
        for is_new in fresh {
            if *is_new {
                edges.push(Edge { from, label })?;
            }
            label += 1;
            if label == labels {
                label = 0;
                from += 1;
            }
        }
        Ok(())
    }
}
