//! What a search found.

ghost use Rattle.std.specs.Prelude.{
  ◌≡◌,
  ◌≢◌,
  ℕ,
  ◌+◌,
  ◌<◌,
  length,
  slice_get,
  Some,
  None,
  is_none,
  reverse,
  IfOk,
  IfSome,
  true,
  false,
};
ghost use Rattle.graph_search.specs.Trees.{IsTrace, IsOrderly, edge_at};

use crate::edges::Edge;
use crate::trees::Tree;
use std::alloc::{AllocError, Global};
use std::marker::Model;

/// The nodes that a search found, numbered from 0 in the order of their witnesses.
#[derive(Drop)]
pub struct Reached {
    tree: Tree,
    /// The edge at which the search was cut, if it was.
    cut: Option<Edge>,
}

impl Model for Reached {
    ghost use Rattle.std.specs.Prelude.{is_none};
    ghost use Rattle.graph_search.specs.Trees.{Found, IsOrderly};

    ghost Value = { Found };

    ghost view = { λ a. record {
      width = a.tree.nodes.width;
      nodes = a.tree.nodes.rows;
      edges = a.tree.edges.items;
      complete = is_none a.cut;
      cut = a.cut;
    } };

    ghost invariant = { λ a. IsOrderly a.tree.nodes.rows a.tree.edges.items };
}

impl Reached {
    pub(crate) fn new(tree: Tree, cut: Option<Edge>) -> Reached
        requires { IsOrderly tree.nodes.rows tree.edges.items }
        ensures width { result.width ≡ tree.nodes.width }
        ensures nodes { result.nodes ≡ tree.nodes.rows }
        ensures edges { result.edges ≡ tree.edges.items }
        ensures complete { result.complete ≡ is_none cut }
        ensures cut { result.cut ≡ cut }
    {
        Reached { tree, cut }
    }

    /// Takes it apart.
    pub(crate) fn into_parts(self) -> (Tree, Option<Edge>)
        ensures width { result.0.nodes.width ≡ self.width }
        ensures nodes { result.0.nodes.rows ≡ self.nodes }
        ensures edges { result.0.edges.items ≡ self.edges }
        ensures cut { result.1 ≡ self.cut }
    {
        (self.tree, self.cut)
    }

    /// Whether every state that can be reached was found.
    pub fn is_complete(&self) -> bool
        ensures { result ≡ self.now.complete }
    {
        self.cut.is_none()
    }

    /// How many nodes were found.
    pub fn len(&self) -> u32
        ensures { result ≡ length self.now.nodes }
    {
        self.tree.len()
    }

    /// How many numbers a node has.
    pub fn width(&self) -> usize
        ensures { result ≡ self.now.width }
    {
        self.tree.nodes.width()
    }

    /// Writes the node of this number. False where there is none, and then nothing is written.
    pub fn read(&self, number: u32, node: &mut [u32]) -> bool
        requires room { length node.old ≡ self.now.width }
        ensures node { result ≡ true → slice_get self.now.nodes number ≡ Some node.new }
        ensures none { result ≡ false → slice_get self.now.nodes number ≡ None }
        ensures left { result ≡ false → node.new ≡ node.old }
        ensures same_room { length node.new ≡ length node.old }
    {
        self.tree.nodes.read(number, node)
    }

    /// The number of this node, if it was found.
    pub fn find(&self, node: &[u32]) -> Option<u32>
        ensures found { IfSome result (λ number. slice_get self.now.nodes number ≡ Some node.now) }
        ensures absent { result ≡ None → (i : ℕ) → slice_get self.now.nodes i ≢ Some node.now }
    {
        self.tree.nodes.find(node)
    }

    /// The labels of the edges that lead from the first node to this one: the witness of its state.
    pub fn witness(&self, alloc: Global, number: u32) -> Result<Vec<u32>, AllocError>
        requires { number < length self.now.nodes }
        ensures { IfOk result (λ labels.
            IsTrace (edge_at self.now.edges) number (reverse labels.items)) }
    {
        let mut labels = Vec::new(alloc);
        let mut node = number;
        while node != 0 {
            let edge = self.tree.edges[node as usize];
            labels.push(edge.label)?;
            node = edge.from;
        }
        labels.reverse();
        Ok(labels)
    }
}
