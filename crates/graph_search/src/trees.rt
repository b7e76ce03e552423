//! The nodes that were found, each with the edge by which it was.

ghost use Rattle.std.specs.Prelude.{
  ◌≡◌,
  ◌≢◌,
  ℕ,
  ◌+◌,
  ◌^◌,
  ◌<◌,
  ◌≤◌,
  [],
  ◌∷◌,
  ◌++◌,
  Some,
  length,
  slice_get,
  slice_index_or,
  IfOk,
};
ghost use Rattle.graph_search.specs.Trees.{Adds, Fits};

use crate::edges::Edge;
use graph_nodes::Nodes;
use std::alloc::{AllocError, Global};

/// The nodes found so far, and an edge for each: that of the first node means nothing.
#[derive(Drop)]
pub struct Tree {
    pub nodes: Nodes,
    pub edges: Vec<Edge>,
}

impl Tree {
    /// The tree of one node, in so many parts, to which helpers can add nodes side by side.
    pub fn new(alloc: Global, start: &[u32], parts: u8) -> Result<Tree, AllocError>
        ensures nodes { IfOk result (λ tree. tree.nodes.rows ≡ start.now ∷ []) }
        ensures edges { IfOk result (λ tree. length tree.edges.items ≡ 1) }
        ensures width { IfOk result (λ tree. tree.nodes.width ≡ length start.now) }
    {
        let mut nodes = Nodes::parted(alloc, start.len(), parts)?;
        nodes.insert(start)?;
        let mut edges = Vec::new(alloc);
        edges.push(Edge { from: 0, label: 0 })?;
        Ok(Tree { nodes, edges })
    }

    /// How many nodes there are.
    pub fn len(&self) -> u32
        ensures { result ≡ length self.now.nodes.rows }
    {
        self.nodes.len() as u32
    }

    /// Writes the node of this number.
    pub fn read(&self, number: u32, node: &mut [u32])
        requires there { number < length self.now.nodes.rows }
        requires room { length node.old ≡ self.now.nodes.width }
        ensures node { slice_get self.now.nodes.rows number ≡ Some node.new }
        ensures same_room { length node.new ≡ length node.old }
    {
        if !self.nodes.read(number, node) {
            unreachable!()
        }
    }

    /// Adds a node with this edge, unless it is there. Fails only when out of memory, or of numbers
    /// for nodes.
    pub fn add(&mut self, node: &[u32], edge: Edge) -> Result<(), AllocError>
        requires { length node.now ≡ self.old.nodes.width }
        ensures added { IfOk result (λ _. Adds node.now edge
            self.old.nodes.rows self.old.edges.items self.new.nodes.rows self.new.edges.items) }
        ensures same_width { self.new.nodes.width ≡ self.old.nodes.width }
    {
        let before = self.nodes.len();
        self.nodes.insert(node)?;
        if self.nodes.len() > before {
            self.edges.push(edge)?;
        }
        Ok(())
    }

    /// Adds a node with this edge, unless it is there. False where it is not there, and there are as
    /// many nodes as the limit. Fails only when out of memory, or of numbers for nodes.
    pub fn reach(&mut self, node: &[u32], edge: Edge, limit: u32) -> Result<bool, AllocError>
        requires wide { length node.now ≡ self.old.nodes.width }
        requires within { length self.old.nodes.rows ≤ limit }
        ensures added { IfOk result (λ fits. Fits node.now edge limit
            self.old.nodes.rows self.old.edges.items self.new.nodes.rows self.new.edges.items fits) }
        ensures same_width { self.new.nodes.width ≡ self.old.nodes.width }
    {
        if self.len() < limit {
            self.add(node, edge)?;
            return Ok(true);
        }
        Ok(self.nodes.find(node).is_some())
    }
}
