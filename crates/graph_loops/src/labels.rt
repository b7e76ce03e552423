//! Labels that may be those of a loop.

ghost use Rattle.std.specs.Prelude.{
  ◌≡◌,
  ℕ,
  ◌+◌,
  ◌<◌,
  ◌≤◌,
  length,
  Some,
  true,
  false,
  IsSome,
  IfOk,
  IfSome,
};
ghost use Rattle.graph_search.specs.Trees.{state_at};
ghost use Rattle.graph_search.specs.Walks.{after};
ghost use Rattle.graph_loops.specs.Loops.{AreMeant, Takes, StaysFound, IsRound};

use crate::edges::{has_edge, target_of};
use graph_search::{Graph, Reached};
use std::alloc::AllocError;

/// What the labels of a walk from a node are.
#[derive(Clone, Copy, PartialEq, Eq, Debug)]
pub enum Round {
    /// Not those of a loop.
    NoLoop,
    /// Those of a loop that is not fair.
    Loop,
    /// Those of a fair loop.
    FairLoop,
}

/// What these labels are, followed from a node, where labels below `actors` are those of actors.
/// `rows` is room for two nodes, to work in. Fails only when out of memory, or of numbers.
pub fn judge_labels<G: Graph>(
    graph: &mut G,
    found: &Reached,
    node: u32,
    labels: &[u32],
    actors: u32,
    rows: &mut [u32],
) -> Result<Round, AllocError>
    requires wide { found.now.width ≡ G.width graph.old }
    requires room { length rows.old ≡ G.width graph.old + G.width graph.old }
    requires labelled { actors ≤ G.label_count graph.old }
    requires there { node < length found.now.nodes }
    requires meant { AreMeant (state_at (G.meaning graph.old) found.now.nodes)
        (length found.now.nodes) }
    ensures same_graph { G.next graph.new ≡ G.next graph.old }
    ensures same_labels { G.label_count graph.new ≡ G.label_count graph.old }
    ensures same_width { G.width graph.new ≡ G.width graph.old }
    ensures states { state_at (G.meaning graph.new) found.now.nodes
        ≡ state_at (G.meaning graph.old) found.now.nodes }
    ensures meant { AreMeant (state_at (G.meaning graph.new) found.now.nodes)
        (length found.now.nodes) }
    ensures round { IfOk result (λ round. (s : G.State) →
        state_at (G.meaning graph.old) found.now.nodes node ≡ Some s →
        IsRound (G.next graph.old) actors (state_at (G.meaning graph.old) found.now.nodes) s
        labels.now round) }
{
    let Some(_actor) = first_actor(labels, actors) else {
        return Ok(Round::NoLoop);
    };
    let Some(end) = walk_end(graph, found, node, labels, rows)? else {
        return Ok(Round::NoLoop);
    };
    if end != node {
        return Ok(Round::NoLoop);
    }
    if is_fair(graph, found, node, labels, actors, rows)? {
        Ok(Round::FairLoop)
    } else {
        Ok(Round::Loop)
    }
}

/// The first of the labels that is an actor's.
fn first_actor(labels: &[u32], actors: u32) -> Option<u32>
    ensures { IfSome result (λ label. (label < actors) × Takes labels.now label) }
{
    for label in labels {
        if *label < actors {
            return Some(*label);
        }
    }
    None
}

/// Whether this is one of the labels.
fn takes(labels: &[u32], wanted: u32) -> bool
    ensures { result ≡ true → Takes labels.now wanted }
{
    for label in labels {
        if *label == wanted {
            return true;
        }
    }
    false
}

/// The node to which a walk leads, if all its nodes were found.
fn walk_end<G: Graph>(
    graph: &mut G,
    found: &Reached,
    node: u32,
    labels: &[u32],
    rows: &mut [u32],
) -> Result<Option<u32>, AllocError>
    requires wide { found.now.width ≡ G.width graph.old }
    requires room { length rows.old ≡ G.width graph.old + G.width graph.old }
    requires there { node < length found.now.nodes }
    requires meant { AreMeant (state_at (G.meaning graph.old) found.now.nodes)
        (length found.now.nodes) }
    ensures same_graph { G.next graph.new ≡ G.next graph.old }
    ensures same_labels { G.label_count graph.new ≡ G.label_count graph.old }
    ensures same_width { G.width graph.new ≡ G.width graph.old }
    ensures states { state_at (G.meaning graph.new) found.now.nodes
        ≡ state_at (G.meaning graph.old) found.now.nodes }
    ensures meant { AreMeant (state_at (G.meaning graph.new) found.now.nodes)
        (length found.now.nodes) }
    ensures walk { IfOk result (λ end. IfSome end (λ to. (s : G.State) →
        state_at (G.meaning graph.old) found.now.nodes node ≡ Some s →
        after (G.next graph.old) s labels.now
        ≡ state_at (G.meaning graph.old) found.now.nodes to)) }
    ensures way { IfOk result (λ end. IsSome end → (s : G.State) →
        state_at (G.meaning graph.old) found.now.nodes node ≡ Some s →
        StaysFound (G.next graph.old) (state_at (G.meaning graph.old) found.now.nodes) s
        labels.now) }
{
    let mut here = node;
    for label in labels {
        if *label >= graph.label_count() {
            return Ok(None);
        }
        let Some(to) = target_of(graph, found, here, *label, rows)? else {
            return Ok(None);
        };
        here = to;
    }
    Ok(Some(here))
}

/// Whether each actor that has an edge at the node is among the labels.
fn is_fair<G: Graph>(
    graph: &mut G,
    found: &Reached,
    node: u32,
    labels: &[u32],
    actors: u32,
    rows: &mut [u32],
) -> Result<bool, AllocError>
    requires wide { found.now.width ≡ G.width graph.old }
    requires room { length rows.old ≡ G.width graph.old + G.width graph.old }
    requires labelled { actors ≤ G.label_count graph.old }
    requires there { node < length found.now.nodes }
    requires meant { AreMeant (state_at (G.meaning graph.old) found.now.nodes)
        (length found.now.nodes) }
    ensures same_graph { G.next graph.new ≡ G.next graph.old }
    ensures same_labels { G.label_count graph.new ≡ G.label_count graph.old }
    ensures same_width { G.width graph.new ≡ G.width graph.old }
    ensures states { state_at (G.meaning graph.new) found.now.nodes
        ≡ state_at (G.meaning graph.old) found.now.nodes }
    ensures meant { AreMeant (state_at (G.meaning graph.new) found.now.nodes)
        (length found.now.nodes) }
    ensures fair { IfOk result (λ fair. fair ≡ true → (m : ℕ) (s t : G.State) → m < actors →
        state_at (G.meaning graph.old) found.now.nodes node ≡ Some s →
        G.next graph.old s m ≡ Some t → Takes labels.now m) }
{
    for actor in 0..actors {
        if takes(labels, actor) {
            continue;
        }
        if has_edge(graph, found, node, actor, rows)? {
            return Ok(false);
        }
    }
    Ok(true)
}
