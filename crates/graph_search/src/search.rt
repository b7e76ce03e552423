//! The search.

ghost use Rattle.std.specs.Prelude.{
  ◌≡◌,
  ℕ,
  ◌+◌,
  ◌*◌,
  ◌^◌,
  ◌<◌,
  ◌≤◌,
  length,
  Some,
  IsSome,
  IfOk,
};
ghost use Rattle.graph_search.specs.Trees.{state_at, edge_at};
ghost use Rattle.graph_search.specs.Searches.{IsExplored, IsSearching, Reaches, place_of};

use crate::ahead::Ahead;
use crate::by_rounds::take_rounds;
use crate::edges::Edge;
use crate::graphs::Graph;
use crate::progress::Progress;
use crate::reached::Reached;
use crate::trees::Tree;
use std::alloc::{AllocError, Global};

/// Finds the states that can be reached from the state of `start`, breadth first, edges in the
/// order of their labels: the first `limit` ones in the order of their witnesses, or all where
/// there are no more. Fails only when out of memory, or of numbers for nodes.
pub fn explore<G: Graph, P: Progress>(
    alloc: Global,
    graph: &mut G,
    start: &[u32],
    limit: u32,
    progress: &mut P,
) -> Result<Reached, AllocError>
    requires some { 0 < limit }
    requires opened { IsSome (G.meaning graph.old start.now) }
    requires wide { length start.now ≡ G.width graph.old }
    ensures same_graph { G.next graph.new ≡ G.next graph.old }
    ensures same_labels { G.label_count graph.new ≡ G.label_count graph.old }
    ensures same_width { G.width graph.new ≡ G.width graph.old }
    ensures wide { IfOk result (λ found. found.width ≡ G.width graph.new) }
    ensures stands { IfOk result (λ found. Reaches (G.next graph.new) (G.meaning graph.new) limit
        (length found.nodes) found.nodes found.edges found.cut) }
    ensures explored { IfOk result (λ found.
        (s : G.State) → G.meaning graph.old start.now ≡ Some s →
        IsExplored (G.next graph.new) s limit (state_at (G.meaning graph.new) found.nodes)
        (edge_at found.edges) (length found.nodes) found.complete) }
{
    let tree = Tree::new(alloc, start, progress.helpers())?;
    let first = Edge { from: 0, label: 0 };
    search_on(alloc, graph, tree, first, limit, progress)
}

/// Goes on with a search of this graph that was cut, with a limit that is no less. What it finds is
/// what a search with that limit finds at once.
pub fn explore_more<G: Graph, P: Progress>(
    alloc: Global,
    graph: &mut G,
    reached: Reached,
    limit: u32,
    progress: &mut P,
) -> Result<Reached, AllocError>
    requires more { length reached.nodes ≤ limit }
    requires wide { reached.width ≡ G.width graph.old }
    requires stands { (before : ℕ) × Reaches (G.next graph.old) (G.meaning graph.old) before
        (length reached.nodes) reached.nodes reached.edges reached.cut }
    ensures same_graph { G.next graph.new ≡ G.next graph.old }
    ensures same_labels { G.label_count graph.new ≡ G.label_count graph.old }
    ensures same_width { G.width graph.new ≡ G.width graph.old }
    ensures wide { IfOk result (λ found. found.width ≡ G.width graph.new) }
    ensures stands { IfOk result (λ found. Reaches (G.next graph.new) (G.meaning graph.new) limit
        (length found.nodes) found.nodes found.edges found.cut) }
    ensures explored { IfOk result (λ found. (s : G.State) →
        state_at (G.meaning graph.old) reached.nodes 0 ≡ Some s →
        IsExplored (G.next graph.new) s limit (state_at (G.meaning graph.new) found.nodes)
        (edge_at found.edges) (length found.nodes) found.complete) }
{
    let (tree, cut) = reached.into_parts();
    let place = place_of(tree.len(), cut);
    search_on(alloc, graph, tree, place, limit, progress)
}

/// Where a search of so many nodes stands.
fn place_of(count: u32, cut: Option<Edge>) -> Edge
    ensures { result ≡ place_of count cut }
{
    match cut {
        Some(edge) => edge,
        None => Edge {
            from: count,
            label: 0,
        },
    }
}

/// Searches from where a search stands.
fn search_on<G: Graph, P: Progress>(
    alloc: Global,
    graph: &mut G,
    mut tree: Tree,
    place: Edge,
    limit: u32,
    progress: &mut P,
) -> Result<Reached, AllocError>
    requires wide { tree.nodes.width ≡ G.width graph.old }
    requires before { IsSearching (G.next graph.old) (G.meaning graph.old) limit
        tree.nodes.rows tree.edges.items place.from place.label }
    requires within { place.from ≤ length tree.nodes.rows }
    ensures same_graph { G.next graph.new ≡ G.next graph.old }
    ensures same_labels { G.label_count graph.new ≡ G.label_count graph.old }
    ensures same_width { G.width graph.new ≡ G.width graph.old }
    ensures wide { IfOk result (λ found. found.width ≡ G.width graph.new) }
    ensures stands { IfOk result (λ found. Reaches (G.next graph.new) (G.meaning graph.new) limit
        (length found.nodes) found.nodes found.edges found.cut) }
    ensures explored { IfOk result (λ found. (s : G.State) →
        state_at (G.meaning graph.old) tree.nodes.rows 0 ≡ Some s →
        IsExplored (G.next graph.new) s limit (state_at (G.meaning graph.new) found.nodes)
        (edge_at found.edges) (length found.nodes) found.complete) }
{
    let mut ahead = Ahead::new(alloc, graph.width(), graph.label_count())?;
    let cut = expand_all(graph, &mut tree, &mut ahead, limit, place, progress)?;
    Ok(Reached::new(tree, cut))
}

/// How many nodes are expanded between two reports of progress.
const REPORT_EVERY: u32 = 4096;

/// Follows all edges from this one on. Answers the edge that led to another state where the tree
/// was full, if one did.
fn expand_all<G: Graph, P: Progress>(
    graph: &mut G,
    tree: &mut Tree,
    ahead: &mut Ahead,
    limit: u32,
    place: Edge,
    progress: &mut P,
) -> Result<Option<Edge>, AllocError>
    requires node { length ahead.old.node.items ≡ G.width graph.old }
    requires room { length ahead.old.rows.items ≡ G.label_count graph.old * G.width graph.old }
    requires wide { tree.old.nodes.width ≡ G.width graph.old }
    requires before { IsSearching (G.next graph.old) (G.meaning graph.old) limit
        tree.old.nodes.rows tree.old.edges.items place.from place.label }
    requires within { place.from ≤ length tree.old.nodes.rows }
    ensures same_graph { G.next graph.new ≡ G.next graph.old }
    ensures same_labels { G.label_count graph.new ≡ G.label_count graph.old }
    ensures same_width { G.width graph.new ≡ G.width graph.old }
    ensures first { IfOk result (λ _. state_at (G.meaning graph.new) tree.new.nodes.rows 0
        ≡ state_at (G.meaning graph.old) tree.old.nodes.rows 0) }
    ensures same_rows { tree.new.nodes.width ≡ tree.old.nodes.width }
    ensures after { IfOk result (Reaches (G.next graph.new) (G.meaning graph.new) limit
        (length tree.new.nodes.rows) tree.new.nodes.rows tree.new.edges.items) }
{
    let mut place = place;
    while place.from < tree.len() {
        place = take_rounds(ahead.alloc, graph, tree, place, limit, progress)?;
        if place.from == tree.len() {
            return Ok(None);
        }
        if place.from % REPORT_EVERY == 0 {
            progress.report(tree.len());
        }
        let cut = expand(graph, tree, ahead, limit, place)?;
        if cut.is_some() {
            return Ok(cut);
        }
        place = Edge {
            from: place.from + 1,
            label: 0,
        };
    }
    Ok(None)
}

/// Follows the edges of one node, from this one on: steps along all of them first, and then looks for
/// the nodes to which they lead, one after another.
fn expand<G: Graph>(
    graph: &mut G,
    tree: &mut Tree,
    ahead: &mut Ahead,
    limit: u32,
    first: Edge,
) -> Result<Option<Edge>, AllocError>
    requires node { length ahead.old.node.items ≡ G.width graph.old }
    requires room { length ahead.old.rows.items ≡ G.label_count graph.old * G.width graph.old }
    requires wide { tree.old.nodes.width ≡ G.width graph.old }
    requires there { first.from < length tree.old.nodes.rows }
    requires before { IsSearching (G.next graph.old) (G.meaning graph.old) limit
        tree.old.nodes.rows tree.old.edges.items first.from first.label }
    ensures same_graph { G.next graph.new ≡ G.next graph.old }
    ensures same_labels { G.label_count graph.new ≡ G.label_count graph.old }
    ensures same_width { G.width graph.new ≡ G.width graph.old }
    ensures same_node { length ahead.new.node.items ≡ length ahead.old.node.items }
    ensures same_room { length ahead.new.rows.items ≡ length ahead.old.rows.items }
    ensures same_rows { tree.new.nodes.width ≡ tree.old.nodes.width }
    ensures first { IfOk result (λ _. state_at (G.meaning graph.new) tree.new.nodes.rows 0
        ≡ state_at (G.meaning graph.old) tree.old.nodes.rows 0) }
    ensures grown { IfOk result (λ _. length tree.old.nodes.rows ≤ length tree.new.nodes.rows) }
    ensures after { IfOk result (Reaches (G.next graph.new) (G.meaning graph.new) limit
        (first.from + 1) tree.new.nodes.rows tree.new.edges.items) }
{
    ahead.read(tree, first.from);
    ahead.step(graph, first.label)?;
    for label in first.label..graph.label_count() {
        let edge = Edge {
            from: first.from,
            label,
        };
        if !ahead.follow((label - first.label) as usize, tree, edge, limit)? {
            return Ok(Some(edge));
        }
    }
    Ok(None)
}
