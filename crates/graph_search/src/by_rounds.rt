//! A search by rounds: while helpers add the nodes to which the steps of one round lead, this thread
//! makes the steps of the next.

ghost use Rattle.std.specs.Prelude.{
  ◌≡◌,
  ℕ,
  ◌+◌,
  ◌*◌,
  ◌^◌,
  ◌<◌,
  ◌≤◌,
  List,
  length,
  Some,
  IfOk,
};
ghost use Rattle.graph_search.specs.Rounds.{IsBehind, Stands};
ghost use Rattle.graph_search.specs.Searches.{IsSearching};
ghost use Rattle.graph_search.specs.Trees.{state_at};

use crate::edges::Edge;
use crate::graphs::Graph;
use crate::progress::Progress;
use crate::rounds::{MOST, Round};
use crate::trees::Tree;
use graph_nodes::Nodes;
use std::alloc::{AllocError, Global};
use std::mem;

/// The fewest nodes that are worth a round.
const FEWEST: u32 = 2048;

/// How many nodes the next round takes, of so many that wait, where so many nodes more may be
/// found, and each has edges of so many labels: half of them, so that there are some for the round
/// behind it. 0 where they are too few for a round.
fn round_size(waiting: u32, room: u32, labels: u32) -> u32
    ensures most { result ≤ 32768 }
    ensures waiting { result ≤ waiting }
    ensures room { result * labels ≤ room }
    ensures labels { 0 < result → 0 < labels }
{
    if labels == 0 {
        return 0;
    }
    let size = (waiting / 2).min(MOST).min(room / labels);
    if size < FEWEST { 0 } else { size }
}

/// Whether a round is worth it: where there are helpers, and enough nodes wait.
fn is_worth<P: Progress>(progress: &P, tree: &Tree, node: u32, limit: u32, labels: u32) -> bool
    requires there { node ≤ length tree.now.nodes.rows }
    requires within { length tree.now.nodes.rows ≤ limit }
{
    progress.helpers() > 0 && round_size(tree.len() - node, limit - tree.len(), labels) > 0
}

/// Takes the next nodes for a round, behind those of a round that is yet to be followed.
fn take_nodes(next: &mut Round, now: &Round, tree: &Tree, limit: u32, labels: u32)
    requires there { now.now.first + now.now.count ≤ length tree.now.nodes.rows }
    requires few { length tree.now.nodes.rows + length now.now.leads.items ≤ limit }
    requires long { length next.old.nodes.items ≡ 32768 * tree.now.nodes.width }
    requires rows { length next.old.rows.items ≡ 32768 * labels * tree.now.nodes.width }
    ensures { IsBehind limit tree.now.nodes.width labels tree.now.nodes.rows now.now next.new }
{
    let from = now.first + now.count;
    let taken = tree.len() + now.leads.len() as u32;
    let count = round_size(tree.len() - from, limit - taken, labels);
    next.read(&tree.nodes, from, count);
}

/// The first round of a search that goes on at this node, with its steps.
fn first_round<G: Graph>(
    alloc: Global,
    graph: &mut G,
    tree: &Tree,
    node: u32,
    limit: u32,
) -> Result<Round, AllocError>
    requires wide { tree.now.nodes.width ≡ G.width graph.old }
    requires there { node ≤ length tree.now.nodes.rows }
    requires before { IsSearching (G.next graph.old) (G.meaning graph.old) limit
        tree.now.nodes.rows tree.now.edges.items node 0 }
    ensures same_graph { G.next graph.new ≡ G.next graph.old }
    ensures same_labels { G.label_count graph.new ≡ G.label_count graph.old }
    ensures same_width { G.width graph.new ≡ G.width graph.old }
    ensures kept { (n : List ℕ) (s : G.State) → G.meaning graph.old n ≡ Some s →
        G.meaning graph.new n ≡ Some s }
    ensures node { IfOk result (λ round. round.first ≡ node) }
    ensures stands { IfOk result (λ round. Stands (G.next graph.new) (G.meaning graph.new) limit
        (G.width graph.new) (G.label_count graph.new) tree.now.nodes.rows tree.now.edges.items
        round) }
{
    let width = graph.width();
    let labels = graph.label_count();
    let mut round = Round::new(alloc, width, labels)?;
    let count = round_size(tree.len() - node, limit - tree.len(), labels);
    round.read(&tree.nodes, node, count);
    if count == 0 {
        return Ok(round);
    }
    round.step(graph)?;
    Ok(round)
}

/// Follows a round: adds the nodes to which its steps lead, while the steps of the next round are
/// made. Fails only when out of memory, or of numbers for nodes, or where the graph's step fails.
fn take_round<G: Graph, P: Progress>(
    alloc: Global,
    graph: &mut G,
    tree: &mut Tree,
    now: &Round,
    next: &mut Round,
    crew: &P,
) -> Result<(), AllocError>
    requires wide { tree.old.nodes.width ≡ G.width graph.old }
    requires some { 0 < now.now.count }
    requires few { length tree.old.nodes.rows + length now.now.leads.items < 2 ^ 32 }
    requires stands { (limit : ℕ) × Stands (G.next graph.old) (G.meaning graph.old) limit
        (G.width graph.old) (G.label_count graph.old) tree.old.nodes.rows tree.old.edges.items
        now.now }
    requires behind { (limit : ℕ) × IsBehind limit (G.width graph.old) (G.label_count graph.old)
        tree.old.nodes.rows now.now next.old }
    ensures same_graph { G.next graph.new ≡ G.next graph.old }
    ensures same_labels { G.label_count graph.new ≡ G.label_count graph.old }
    ensures same_width { G.width graph.new ≡ G.width graph.old }
    ensures same_rows { tree.new.nodes.width ≡ tree.old.nodes.width }
    ensures first { IfOk result (λ _. state_at (G.meaning graph.new) tree.new.nodes.rows 0
        ≡ state_at (G.meaning graph.old) tree.old.nodes.rows 0) }
    ensures same_first { next.new.first ≡ next.old.first }
    ensures after { IfOk result (λ _. (limit : ℕ) →
        Stands (G.next graph.old) (G.meaning graph.old) limit (G.width graph.old)
        (G.label_count graph.old) tree.old.nodes.rows tree.old.edges.items now.now →
        IsBehind limit (G.width graph.old) (G.label_count graph.old) tree.old.nodes.rows now.now
        next.old →
        Stands (G.next graph.new) (G.meaning graph.new) limit (G.width graph.new)
        (G.label_count graph.new) tree.new.nodes.rows tree.new.edges.items next.new) }
{
    let labels = graph.label_count();
    let empty = Nodes::new(alloc, tree.nodes.width());
    let nodes = mem::replace(&mut tree.nodes, empty);
    let joining = nodes.start(alloc, crew, now.leads.as_slice(), now.rows.as_slice())?;
    let stepped = next.step(graph);
    let joined = joining.finish(crew)?;
    stepped?;
    tree.nodes = joined.nodes;
    now.follow(labels, joined.fresh.as_slice(), &mut tree.edges)?;
    Ok(())
}

/// Searches round by round, from this node on, until too few nodes wait for another round. Answers
/// the node at which it stands then.
fn search_rounds<G: Graph, P: Progress>(
    alloc: Global,
    graph: &mut G,
    tree: &mut Tree,
    node: u32,
    limit: u32,
    progress: &mut P,
) -> Result<u32, AllocError>
    requires wide { tree.old.nodes.width ≡ G.width graph.old }
    requires there { node ≤ length tree.old.nodes.rows }
    requires before { IsSearching (G.next graph.old) (G.meaning graph.old) limit
        tree.old.nodes.rows tree.old.edges.items node 0 }
    ensures same_graph { G.next graph.new ≡ G.next graph.old }
    ensures same_labels { G.label_count graph.new ≡ G.label_count graph.old }
    ensures same_width { G.width graph.new ≡ G.width graph.old }
    ensures same_rows { tree.new.nodes.width ≡ tree.old.nodes.width }
    ensures first { IfOk result (λ _. state_at (G.meaning graph.new) tree.new.nodes.rows 0
        ≡ state_at (G.meaning graph.old) tree.old.nodes.rows 0) }
    ensures onward { IfOk result (λ stands. node ≤ stands) }
    ensures there { IfOk result (λ stands. stands ≤ length tree.new.nodes.rows) }
    ensures after { IfOk result (λ stands. IsSearching (G.next graph.new) (G.meaning graph.new)
        limit tree.new.nodes.rows tree.new.edges.items stands 0) }
{
    let labels = graph.label_count();
    let mut now = first_round(alloc, graph, tree, node, limit)?;
    let mut next = Round::new(alloc, graph.width(), labels)?;
    while now.count > 0 {
        progress.report(tree.len());
        take_nodes(&mut next, &now, tree, limit, labels);
        take_round(alloc, graph, tree, &now, &mut next, progress)?;
        mem::swap(&mut now, &mut next);
    }
    Ok(now.first)
}

/// Searches by rounds from an edge on, where that is worth it and the edge is a node's first one.
/// Answers the edge at which the search stands then.
pub fn take_rounds<G: Graph, P: Progress>(
    alloc: Global,
    graph: &mut G,
    tree: &mut Tree,
    place: Edge,
    limit: u32,
    progress: &mut P,
) -> Result<Edge, AllocError>
    requires wide { tree.old.nodes.width ≡ G.width graph.old }
    requires there { place.from < length tree.old.nodes.rows }
    requires before { IsSearching (G.next graph.old) (G.meaning graph.old) limit
        tree.old.nodes.rows tree.old.edges.items place.from place.label }
    ensures same_graph { G.next graph.new ≡ G.next graph.old }
    ensures same_labels { G.label_count graph.new ≡ G.label_count graph.old }
    ensures same_width { G.width graph.new ≡ G.width graph.old }
    ensures same_rows { tree.new.nodes.width ≡ tree.old.nodes.width }
    ensures first { IfOk result (λ _. state_at (G.meaning graph.new) tree.new.nodes.rows 0
        ≡ state_at (G.meaning graph.old) tree.old.nodes.rows 0) }
    ensures onward { IfOk result (λ edge. place.from ≤ edge.from) }
    ensures there { IfOk result (λ edge. edge.from ≤ length tree.new.nodes.rows) }
    ensures ended { IfOk result (λ edge. edge.from ≡ length tree.new.nodes.rows →
        edge.label ≡ 0) }
    ensures after { IfOk result (λ edge. IsSearching (G.next graph.new) (G.meaning graph.new)
        limit tree.new.nodes.rows tree.new.edges.items edge.from edge.label) }
{
    if place.label != 0 {
        return Ok(place);
    }
    if !is_worth(progress, tree, place.from, limit, graph.label_count()) {
        return Ok(place);
    }
    let from = search_rounds(alloc, graph, tree, place.from, limit, progress)?;
    Ok(Edge { from, label: 0 })
}
