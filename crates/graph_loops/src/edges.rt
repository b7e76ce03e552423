//! The edges between the nodes that a search found.

ghost use Rattle.std.specs.Prelude.{
  ◌≡◌,
  ◌≢◌,
  ◌≤◌,
  ℕ,
  ◌+◌,
  ◌<◌,
  List,
  length,
  drop,
  slice_get,
  Some,
  None,
  true,
  false,
  IsSome,
  IfOk,
  IfSome,
};
ghost use Rattle.graph_search.specs.Graphs.{LeadsTo};
ghost use Rattle.graph_search.specs.Trees.{state_at};
ghost use Rattle.graph_loops.specs.Loops.{AreMeant};

use graph_search::{Graph, Reached};
use std::alloc::{AllocError, Global};

/// Room for a node and for one to which an edge leads. Fails only when out of memory.
pub fn edge_room<G: Graph>(alloc: Global, graph: &G) -> Result<Vec<u32>, AllocError>
    ensures { IfOk result (λ rows. length rows.items ≡ G.width graph.now + G.width graph.now) }
{
    let mut rows = Vec::new(alloc);
    rows.resize(graph.width(), 0)?;
    rows.resize(2 * rows.len(), 0)?;
    Ok(rows)
}

/// Follows a node's edge with this label: reads the node into the first half of `rows`, and writes
/// that to which the edge leads into the second. False where there is no such edge. Fails only when
/// out of memory, or of numbers.
pub(crate) fn follow<G: Graph>(
    graph: &mut G,
    found: &Reached,
    node: u32,
    label: u32,
    rows: &mut [u32],
) -> Result<bool, AllocError>
    requires wide { found.now.width ≡ G.width graph.old }
    requires room { length rows.old ≡ G.width graph.old + G.width graph.old }
    requires labelled { label < G.label_count graph.old }
    requires there { node < length found.now.nodes }
    requires meant { AreMeant (state_at (G.meaning graph.old) found.now.nodes)
        (length found.now.nodes) }
    ensures same_graph { G.next graph.new ≡ G.next graph.old }
    ensures same_labels { G.label_count graph.new ≡ G.label_count graph.old }
    ensures same_width { G.width graph.new ≡ G.width graph.old }
    ensures kept { (n : List ℕ) (s : G.State) → G.meaning graph.old n ≡ Some s →
        G.meaning graph.new n ≡ Some s }
    ensures one_node { (m n : List ℕ) (s : G.State) → G.meaning graph.new m ≡ Some s →
        G.meaning graph.new n ≡ Some s → m ≡ n }
    ensures value { IfOk result (λ leads. (row : List ℕ) (s : G.State) →
        slice_get found.now.nodes node ≡ Some row → G.meaning graph.old row ≡ Some s →
        LeadsTo (G.meaning graph.new) leads (drop (G.width graph.old) rows.new)
        (G.next graph.old s label)) }
{
    let (from, to) = rows.split_at_mut(graph.width());
    if !found.read(node, from) {
        unreachable!()
    }
    graph.step(from, label, to)
}

/// The number of the node behind the first `width` numbers of `rows`, if it was found.
pub(crate) fn target_in(found: &Reached, rows: &[u32], width: usize) -> Option<u32>
    requires { width ≤ length rows.now }
    ensures found { IfSome result (λ to. slice_get found.now.nodes to
        ≡ Some (drop width rows.now)) }
    ensures absent { result ≡ None → (i : ℕ) →
        slice_get found.now.nodes i ≢ Some (drop width rows.now) }
{
    found.find(&rows[width..])
}

/// Whether a node has an edge with this label. Fails only when out of memory, or of numbers.
pub fn has_edge<G: Graph>(
    graph: &mut G,
    found: &Reached,
    node: u32,
    label: u32,
    rows: &mut [u32],
) -> Result<bool, AllocError>
    requires wide { found.now.width ≡ G.width graph.old }
    requires room { length rows.old ≡ G.width graph.old + G.width graph.old }
    requires labelled { label < G.label_count graph.old }
    requires there { node < length found.now.nodes }
    requires meant { AreMeant (state_at (G.meaning graph.old) found.now.nodes)
        (length found.now.nodes) }
    ensures same_graph { G.next graph.new ≡ G.next graph.old }
    ensures same_labels { G.label_count graph.new ≡ G.label_count graph.old }
    ensures same_width { G.width graph.new ≡ G.width graph.old }
    ensures states { state_at (G.meaning graph.new) found.now.nodes
        ≡ state_at (G.meaning graph.old) found.now.nodes }
    ensures meant { AreMeant (state_at (G.meaning graph.new) found.now.nodes)
        (length found.now.nodes) }
    ensures edge { IfOk result (λ leads. leads ≡ true → (s : G.State) →
        state_at (G.meaning graph.old) found.now.nodes node ≡ Some s →
        IsSome (G.next graph.old s label)) }
    ensures none { IfOk result (λ leads. leads ≡ false → (s : G.State) →
        state_at (G.meaning graph.old) found.now.nodes node ≡ Some s →
        G.next graph.old s label ≡ None) }
{
    follow(graph, found, node, label, rows)
}

/// The node to which a node's edge with this label leads, if it leads to one that was found. Fails
/// only when out of memory, or of numbers.
pub fn target_of<G: Graph>(
    graph: &mut G,
    found: &Reached,
    node: u32,
    label: u32,
    rows: &mut [u32],
) -> Result<Option<u32>, AllocError>
    requires wide { found.now.width ≡ G.width graph.old }
    requires room { length rows.old ≡ G.width graph.old + G.width graph.old }
    requires labelled { label < G.label_count graph.old }
    requires there { node < length found.now.nodes }
    requires meant { AreMeant (state_at (G.meaning graph.old) found.now.nodes)
        (length found.now.nodes) }
    ensures same_graph { G.next graph.new ≡ G.next graph.old }
    ensures same_labels { G.label_count graph.new ≡ G.label_count graph.old }
    ensures same_width { G.width graph.new ≡ G.width graph.old }
    ensures states { state_at (G.meaning graph.new) found.now.nodes
        ≡ state_at (G.meaning graph.old) found.now.nodes }
    ensures meant { AreMeant (state_at (G.meaning graph.new) found.now.nodes)
        (length found.now.nodes) }
    ensures there { IfOk result (λ target. IfSome target (λ to. to < length found.now.nodes)) }
    ensures target { IfOk result (λ target. IfSome target (λ to. (s : G.State) →
        state_at (G.meaning graph.old) found.now.nodes node ≡ Some s →
        G.next graph.old s label ≡ state_at (G.meaning graph.old) found.now.nodes to)) }
{
    if !follow(graph, found, node, label, rows)? {
        return Ok(None);
    }
    Ok(target_in(found, rows, graph.width()))
}
