//! The scan.

ghost use Rattle.std.specs.Prelude.{
  ◌≡◌,
  ℕ,
  ◌+◌,
  ◌*◌,
  ◌^◌,
  ◌<◌,
  ◌≤◌,
  length,
  slice_get,
  slice_index,
  Some,
  true,
  IsSome,
  IfOk,
};
ghost use Rattle.graph_search.specs.Trees.{state_at};
ghost use Rattle.graph_loops.specs.Loops.{IsKnown};
ghost use Rattle.graph_loops.specs.Scans.{IsScanning, ScansTo};

use crate::edges::{edge_room, follow, target_in};
use crate::tables::{all_starved, is_still, place};
use graph_search::{Edge, Graph, Reached};
use std::alloc::{AllocError, Global};

/// What is known of the loops of a graph's states.
#[derive(Clone, Copy, PartialEq, Eq, Debug)]
pub enum Loops {
    /// No state has a loop.
    NoLoop,
    /// No state has a fair loop.
    Unfair,
    /// Nothing.
    Unknown,
}

/// Which actors move within each number, and which have a step in all of its nodes.
#[derive(Drop)]
struct Tables {
    moves: Vec<bool>,
    runs: Vec<bool>,
}

/// What the nodes' numbers show of loops, where labels below `actors` are those of actors. If
/// numbers never rise along an edge, a loop stays within one of them. Fails only when out of
/// memory.
pub fn judge_loops<G: Graph>(
    alloc: Global,
    graph: &mut G,
    found: &Reached,
    numbers: &[u32],
    actors: u32,
) -> Result<Loops, AllocError>
    requires wide { found.now.width ≡ G.width graph.old }
    requires meant { (i : ℕ) → i < length found.now.nodes →
        (s : G.State) × (state_at (G.meaning graph.old) found.now.nodes i ≡ Some s) }
    requires distinct { (i j : ℕ) (s : G.State) →
        state_at (G.meaning graph.old) found.now.nodes i ≡ Some s →
        state_at (G.meaning graph.old) found.now.nodes j ≡ Some s → i ≡ j }
    requires labelled { actors ≤ G.label_count graph.old }
    ensures same_graph { G.next graph.new ≡ G.next graph.old }
    ensures same_labels { G.label_count graph.new ≡ G.label_count graph.old }
    ensures same_width { G.width graph.new ≡ G.width graph.old }
    ensures states { IfOk result (λ _. state_at (G.meaning graph.new) found.now.nodes
        ≡ state_at (G.meaning graph.old) found.now.nodes) }
    ensures known { IfOk result
        (IsKnown (G.next graph.old) actors (state_at (G.meaning graph.old) found.now.nodes)) }
{
    if numbers.len() != found.len() as usize {
        return Ok(Loops::Unknown);
    }
    if !numbers
        .iter()
        .all(|number| (*number as usize) < numbers.len())
    {
        return Ok(Loops::Unknown);
    }
    let mut tables = new_tables(alloc, numbers.len(), actors)?;
    let mut rows = edge_room(alloc, graph)?;
    if !scan(
        graph,
        found,
        numbers,
        actors,
        &mut tables,
        rows.as_mut_slice(),
    )? {
        return Ok(Loops::Unknown);
    }
    if is_still(tables.moves.as_slice()) {
        return Ok(Loops::NoLoop);
    }
    if all_starved(
        tables.moves.as_slice(),
        tables.runs.as_slice(),
        found.len(),
        actors,
    ) {
        return Ok(Loops::Unfair);
    }
    Ok(Loops::Unknown)
}

/// Tables of actors that move nowhere, and have a step everywhere.
fn new_tables(alloc: Global, numbers: usize, actors: u32) -> Result<Tables, AllocError>
    requires { numbers < 2 ^ 32 }
    ensures moves { IfOk result (λ tables. length tables.moves.items ≡ numbers * actors) }
    ensures runs { IfOk result (λ tables. length tables.runs.items ≡ numbers * actors) }
{
    let entries = numbers * actors as usize;
    let mut moves = Vec::new(alloc);
    moves.resize(entries, false)?;
    let mut runs = Vec::new(alloc);
    runs.resize(entries, true)?;
    Ok(Tables { moves, runs })
}

/// Looks at the edges of all nodes. False where one leads to a node of a greater number, or to
/// none.
fn scan<G: Graph>(
    graph: &mut G,
    found: &Reached,
    numbers: &[u32],
    actors: u32,
    tables: &mut Tables,
    rows: &mut [u32],
) -> Result<bool, AllocError>
    requires wide { found.now.width ≡ G.width graph.old }
    requires room { length rows.old ≡ G.width graph.old + G.width graph.old }
    requires labelled { actors ≤ G.label_count graph.old }
    requires before { IsScanning (G.next graph.old) (G.meaning graph.old) actors found.now.nodes
        numbers.now tables.old.moves.items tables.old.runs.items 0 0 }
    ensures same_graph { G.next graph.new ≡ G.next graph.old }
    ensures same_labels { G.label_count graph.new ≡ G.label_count graph.old }
    ensures same_width { G.width graph.new ≡ G.width graph.old }
    ensures after { IfOk result (ScansTo (G.next graph.new) (G.meaning graph.old)
        (G.meaning graph.new) actors found.now.nodes numbers.now (length numbers.now) 0
        tables.new.moves.items tables.new.runs.items) }
{
    for node in 0..found.len() {
        if !scan_node(graph, found, numbers, actors, tables, rows, node)? {
            return Ok(false);
        }
    }
    Ok(true)
}

/// Looks at the edges of one node.
fn scan_node<G: Graph>(
    graph: &mut G,
    found: &Reached,
    numbers: &[u32],
    actors: u32,
    tables: &mut Tables,
    rows: &mut [u32],
    node: u32,
) -> Result<bool, AllocError>
    requires wide { found.now.width ≡ G.width graph.old }
    requires room { length rows.old ≡ G.width graph.old + G.width graph.old }
    requires labelled { actors ≤ G.label_count graph.old }
    requires there { node < length found.now.nodes }
    requires before { IsScanning (G.next graph.old) (G.meaning graph.old) actors found.now.nodes
        numbers.now tables.old.moves.items tables.old.runs.items node 0 }
    ensures same_graph { G.next graph.new ≡ G.next graph.old }
    ensures same_labels { G.label_count graph.new ≡ G.label_count graph.old }
    ensures same_width { G.width graph.new ≡ G.width graph.old }
    ensures after { IfOk result (ScansTo (G.next graph.new) (G.meaning graph.old)
        (G.meaning graph.new) actors found.now.nodes numbers.now (node + 1) 0
        tables.new.moves.items tables.new.runs.items) }
{
    for label in 0..graph.label_count() {
        let edge = Edge { from: node, label };
        if !scan_edge(graph, found, numbers, actors, tables, rows, edge)? {
            return Ok(false);
        }
    }
    Ok(true)
}

/// Looks at one edge, and notes what it shows of the actor whose label it has.
fn scan_edge<G: Graph>(
    graph: &mut G,
    found: &Reached,
    numbers: &[u32],
    actors: u32,
    tables: &mut Tables,
    rows: &mut [u32],
    edge: Edge,
) -> Result<bool, AllocError>
    requires wide { found.now.width ≡ G.width graph.old }
    requires room { length rows.old ≡ G.width graph.old + G.width graph.old }
    requires labelled { edge.label < G.label_count graph.old }
    requires there { edge.from < length found.now.nodes }
    requires before { IsScanning (G.next graph.old) (G.meaning graph.old) actors found.now.nodes
        numbers.now tables.old.moves.items tables.old.runs.items edge.from edge.label }
    ensures same_graph { G.next graph.new ≡ G.next graph.old }
    ensures same_labels { G.label_count graph.new ≡ G.label_count graph.old }
    ensures same_width { G.width graph.new ≡ G.width graph.old }
    ensures after { IfOk result (ScansTo (G.next graph.new) (G.meaning graph.old)
        (G.meaning graph.new) actors found.now.nodes numbers.now edge.from (edge.label + 1)
        tables.new.moves.items tables.new.runs.items) }
{
    let number = numbers[edge.from as usize];
    if !follow(graph, found, edge.from, edge.label, rows)? {
        if edge.label < actors {
            tables.runs[place(number, numbers.len(), actors, edge.label)] = false;
        }
        return Ok(true);
    }
    let Some(to) = target_in(found, rows, graph.width()) else {
        return Ok(false);
    };
    let next = numbers[to as usize];
    if next > number {
        return Ok(false);
    }
    if next < number {
        return Ok(true);
    }
    if edge.label < actors {
        tables.moves[place(number, numbers.len(), actors, edge.label)] = true;
    }
    Ok(true)
}
