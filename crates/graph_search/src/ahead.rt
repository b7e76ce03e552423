//! Steps along the edges of a node, made before any of them is followed.

ghost use Rattle.std.specs.Prelude.{
  ◌≡◌,
  ◌≢◌,
  ℕ,
  ◌+◌,
  ◌-◌,
  ◌*◌,
  ◌<◌,
  ◌≤◌,
  List,
  length,
  slice_index_or,
  Some,
  false,
  IsSome,
  IfOk,
  slice_get,
};
ghost use Rattle.interner.specs.Rows.{row_at};
ghost use Rattle.graph_search.specs.Searches.{AreSteps, Follows};

use crate::edges::Edge;
use crate::graphs::Graph;
use crate::trees::Tree;
use std::alloc::{AllocError, Global};

/// The steps along the edges of a node, label by label from one on.
#[derive(Drop)]
pub struct Ahead {
    pub alloc: Global,
    /// The node.
    pub node: Vec<u32>,
    /// For each label, whether there is such an edge.
    pub leads: Vec<bool>,
    /// For each label a row, which is the node to which the edge leads, if there is one. There is
    /// room for the rows of all labels.
    pub rows: Vec<u32>,
}

impl Ahead {
    /// No steps yet, of nodes with so many numbers, along edges with so many labels.
    pub fn new(alloc: Global, width: usize, labels: u32) -> Result<Ahead, AllocError>
        ensures node { IfOk result (λ ahead. length ahead.node.items ≡ width) }
        ensures room { IfOk result (λ ahead. length ahead.rows.items ≡ labels * width) }
    {
        let mut node = Vec::new(alloc);
        node.resize(width, 0)?;
        let room = (labels as usize).checked_mul(width).ok_or(AllocError)?;
        let mut rows = Vec::new(alloc);
        rows.resize(room, 0)?;
        Ok(Ahead {
            alloc,
            node,
            leads: Vec::new(alloc),
            rows,
        })
    }

    /// Takes the node of this number.
    pub fn read(&mut self, tree: &Tree, number: u32)
        requires there { number < length tree.now.nodes.rows }
        requires room { length self.old.node.items ≡ tree.now.nodes.width }
        ensures node { slice_get tree.now.nodes.rows number ≡ Some self.new.node.items }
        ensures room { length self.new.node.items ≡ length self.old.node.items }
        ensures same_rows { self.new.rows.items ≡ self.old.rows.items }
    {
        tree.read(number, self.node.as_mut_slice());
    }

    /// Steps along the node's edges from this label on, in place of those before. Fails only when
    /// out of memory, or where the graph's step does.
    pub fn step<G: Graph>(&mut self, graph: &mut G, first: u32) -> Result<(), AllocError>
        requires meant { IsSome (G.meaning graph.old self.old.node.items) }
        requires wide { length self.old.node.items ≡ G.width graph.old }
        requires room { length self.old.rows.items ≡ G.label_count graph.old * G.width graph.old }
        ensures same_graph { G.next graph.new ≡ G.next graph.old }
        ensures same_labels { G.label_count graph.new ≡ G.label_count graph.old }
        ensures same_width { G.width graph.new ≡ G.width graph.old }
        ensures same_node { self.new.node.items ≡ self.old.node.items }
        ensures same_room { length self.new.rows.items ≡ length self.old.rows.items }
        ensures kept { (n : List ℕ) (s : G.State) → G.meaning graph.old n ≡ Some s →
            G.meaning graph.new n ≡ Some s }
        ensures one_node { IfOk result (λ _. first < G.label_count graph.old →
            (m n : List ℕ) (s : G.State) → G.meaning graph.new m ≡ Some s →
            G.meaning graph.new n ≡ Some s → m ≡ n) }
        ensures count { IfOk result (λ _.
            first ≤ G.label_count graph.old →
            first + length self.new.leads.items ≡ G.label_count graph.old) }
        ensures whole { IfOk result (λ _. length self.new.leads.items * G.width graph.old
            ≤ length self.new.rows.items) }
        ensures steps { IfOk result (λ _. (s : G.State) →
            G.meaning graph.old self.old.node.items ≡ Some s →
            AreSteps (G.next graph.new) (G.meaning graph.new) (G.width graph.old) s first
            self.new.leads.items self.new.rows.items) }
    {
        self.leads.clear();
        let width = self.node.len();
        for label in first..graph.label_count() {
            let start = (label - first) as usize * width;
            let to = &mut self.rows.as_mut_slice()[start..start + width];
            let leads = graph.step(self.node.as_slice(), label, to)?;
            self.leads.push(leads)?;
        }
        Ok(())
    }

    /// Follows the edge of a step: adds the node to which it leads, unless it is there. False where
    /// there are as many nodes as the limit, and it is none of them.
    pub fn follow(
        &self,
        place: usize,
        tree: &mut Tree,
        edge: Edge,
        limit: u32,
    ) -> Result<bool, AllocError>
        requires there { place < length self.now.leads.items }
        requires whole { length self.now.leads.items * tree.old.nodes.width
            ≤ length self.now.rows.items }
        requires within { length tree.old.nodes.rows ≤ limit }
        ensures followed { IfOk result (Follows (slice_index_or self.now.leads.items place false)
            (row_at tree.old.nodes.width self.now.rows.items place) edge limit
            tree.old.nodes.rows tree.old.edges.items tree.new.nodes.rows tree.new.edges.items) }
        ensures same_width { tree.new.nodes.width ≡ tree.old.nodes.width }
    {
        if !self.leads[place] {
            return Ok(true);
        }
        let width = tree.nodes.width();
        let start = place * width;
        tree.reach(&self.rows[start..start + width], edge, limit)
    }
}
