//! Whether the states that a search found have loops.

ghost use Rattle.std.specs.Prelude.{◌≡◌, ◌+◌, ◌<◌, ◌≤◌, length, true, IfOk, IfSome};
ghost use Rattle.graph_search.specs.Trees.{state_at};
ghost use Rattle.graph_loops.specs.Loops.{AreMeant, IsKnown};
ghost use Rattle.loop_search.specs.Verdicts.{AreDistinct, IsVerdict, IsFoundLoop, IsFoundFair, IsTried};

use crate::components::components_of;
use crate::rounds::{MAX_ACTORS, Wanted, movers_of, running_at, shortest_loop};
use graph_loops::{Loops, Round, edge_room, judge_labels, judge_loops};
use graph_search::{Graph, Reached};
use std::alloc::{AllocError, Global};

/// A node and the labels of a loop of its state.
#[derive(Drop)]
pub struct FoundLoop {
    pub node: u32,
    pub labels: Vec<u32>,
}

/// What a search for loops found.
#[derive(Drop)]
pub enum Verdict {
    /// A fair loop.
    Fair(FoundLoop),
    /// Nothing.
    Unknown,
    /// A loop, where no state has a fair one.
    Unfair(FoundLoop),
    /// No state has a loop.
    NoLoop,
}

/// What became of a loop that was looked for at one node.
#[derive(Drop)]
enum Tried {
    Nothing,
    /// A loop that is not fair.
    Loop(FoundLoop),
    Fair(FoundLoop),
}

/// Each component, with the actors that have an edge inside it.
#[derive(Drop)]
struct Components {
    numbers: Vec<u32>,
    movers: Vec<u32>,
}

impl Components {
    /// The actors that have an edge inside a node's component, as a set of bits.
    fn movers(&self, node: u32) -> u32 {
        let Some(number) = self.numbers.get(node as usize) else {
            return 0;
        };
        self.movers.get(*number as usize).copied().unwrap_or(0)
    }
}

/// Looks for loops of the states that a search found, where labels below `actors` are those of
/// actors: a fair one of the first state that has one, the shortest and of those the least; where
/// the search found all states and there is none, a loop likewise. Fails only when out of memory,
/// or of numbers.
pub fn search_loops<G: Graph>(
    alloc: Global,
    graph: &mut G,
    found: &Reached,
    actors: u32,
) -> Result<Verdict, AllocError>
    requires wide { found.now.width ≡ G.width graph.old }
    requires few { actors ≤ MAX_ACTORS }
    requires labelled { actors ≤ G.label_count graph.old }
    requires meant { AreMeant (state_at (G.meaning graph.old) found.now.nodes)
        (length found.now.nodes) }
    requires distinct { AreDistinct (state_at (G.meaning graph.old) found.now.nodes) }
    ensures same_graph { G.next graph.new ≡ G.next graph.old }
    ensures same_labels { G.label_count graph.new ≡ G.label_count graph.old }
    ensures same_width { G.width graph.new ≡ G.width graph.old }
    ensures states { IfOk result (λ _. state_at (G.meaning graph.new) found.now.nodes
        ≡ state_at (G.meaning graph.old) found.now.nodes) }
    ensures verdict { IfOk result (IsVerdict (G.next graph.old) actors
        (state_at (G.meaning graph.old) found.now.nodes) found.now.complete) }
{
    if is_descending(alloc, graph, found, actors)? {
        return Ok(Verdict::NoLoop);
    }
    search_components(alloc, graph, found, actors)
}

/// Whether the search found all states and every edge of an actor leads to a later node: then there
/// is no loop.
fn is_descending<G: Graph>(
    alloc: Global,
    graph: &mut G,
    found: &Reached,
    actors: u32,
) -> Result<bool, AllocError>
    requires wide { found.now.width ≡ G.width graph.old }
    requires labelled { actors ≤ G.label_count graph.old }
    requires meant { AreMeant (state_at (G.meaning graph.old) found.now.nodes)
        (length found.now.nodes) }
    requires distinct { AreDistinct (state_at (G.meaning graph.old) found.now.nodes) }
    ensures same_graph { G.next graph.new ≡ G.next graph.old }
    ensures same_labels { G.label_count graph.new ≡ G.label_count graph.old }
    ensures same_width { G.width graph.new ≡ G.width graph.old }
    ensures states { IfOk result (λ _. state_at (G.meaning graph.new) found.now.nodes
        ≡ state_at (G.meaning graph.old) found.now.nodes) }
    ensures meant { IfOk result (λ _. AreMeant (state_at (G.meaning graph.new) found.now.nodes)
        (length found.now.nodes)) }
    ensures none { IfOk result (λ none. none ≡ true → IsVerdict (G.next graph.old) actors
        (state_at (G.meaning graph.old) found.now.nodes) found.now.complete Verdict.NoLoop) }
{
    if !found.is_complete() {
        return Ok(false);
    }
    let numbers = backwards(alloc, found.len())?;
    match judge_numbers(alloc, graph, found, numbers.as_slice(), actors)? {
        Loops::NoLoop => Ok(true),
        Loops::Unfair | Loops::Unknown => Ok(false),
    }
}

/// What the nodes' numbers show of loops.
fn judge_numbers<G: Graph>(
    alloc: Global,
    graph: &mut G,
    found: &Reached,
    numbers: &[u32],
    actors: u32,
) -> Result<Loops, AllocError>
    requires wide { found.now.width ≡ G.width graph.old }
    requires labelled { actors ≤ G.label_count graph.old }
    requires meant { AreMeant (state_at (G.meaning graph.old) found.now.nodes)
        (length found.now.nodes) }
    requires distinct { AreDistinct (state_at (G.meaning graph.old) found.now.nodes) }
    ensures same_graph { G.next graph.new ≡ G.next graph.old }
    ensures same_labels { G.label_count graph.new ≡ G.label_count graph.old }
    ensures same_width { G.width graph.new ≡ G.width graph.old }
    ensures states { IfOk result (λ _. state_at (G.meaning graph.new) found.now.nodes
        ≡ state_at (G.meaning graph.old) found.now.nodes) }
    ensures meant { IfOk result (λ _. AreMeant (state_at (G.meaning graph.new) found.now.nodes)
        (length found.now.nodes)) }
    ensures known { IfOk result (IsKnown (G.next graph.old) actors
        (state_at (G.meaning graph.old) found.now.nodes)) }
{
    judge_loops(alloc, graph, found, numbers, actors)
}

/// Looks for loops inside the components of the graph.
fn search_components<G: Graph>(
    alloc: Global,
    graph: &mut G,
    found: &Reached,
    actors: u32,
) -> Result<Verdict, AllocError>
    requires wide { found.now.width ≡ G.width graph.old }
    requires few { actors ≤ MAX_ACTORS }
    requires labelled { actors ≤ G.label_count graph.old }
    requires meant { AreMeant (state_at (G.meaning graph.old) found.now.nodes)
        (length found.now.nodes) }
    requires distinct { AreDistinct (state_at (G.meaning graph.old) found.now.nodes) }
    ensures same_graph { G.next graph.new ≡ G.next graph.old }
    ensures same_labels { G.label_count graph.new ≡ G.label_count graph.old }
    ensures same_width { G.width graph.new ≡ G.width graph.old }
    ensures states { IfOk result (λ _. state_at (G.meaning graph.new) found.now.nodes
        ≡ state_at (G.meaning graph.old) found.now.nodes) }
    ensures verdict { IfOk result (IsVerdict (G.next graph.old) actors
        (state_at (G.meaning graph.old) found.now.nodes) found.now.complete) }
{
    let mut rows = edge_room(alloc, graph)?;
    let rows = rows.as_mut_slice();
    let numbers = components_of(alloc, graph, found, rows)?;
    let movers = movers_of(alloc, graph, found, numbers.as_slice(), actors, rows)?;
    let components = Components { numbers, movers };
    if let Some(fair) = fair_loop(alloc, graph, found, &components, actors, rows)? {
        return Ok(Verdict::Fair(fair));
    }
    if !found.is_complete() {
        return Ok(Verdict::Unknown);
    }
    judge_components(alloc, graph, found, &components, actors, rows)
}

/// What the components show of loops, where none is fair.
fn judge_components<G: Graph>(
    alloc: Global,
    graph: &mut G,
    found: &Reached,
    components: &Components,
    actors: u32,
    rows: &mut [u32],
) -> Result<Verdict, AllocError>
    requires wide { found.now.width ≡ G.width graph.old }
    requires room { length rows.old ≡ G.width graph.old + G.width graph.old }
    requires few { actors ≤ MAX_ACTORS }
    requires labelled { actors ≤ G.label_count graph.old }
    requires even { length components.now.numbers.items ≡ length found.now.nodes }
    requires complete { found.now.complete ≡ true }
    requires meant { AreMeant (state_at (G.meaning graph.old) found.now.nodes)
        (length found.now.nodes) }
    requires distinct { AreDistinct (state_at (G.meaning graph.old) found.now.nodes) }
    ensures same_graph { G.next graph.new ≡ G.next graph.old }
    ensures same_labels { G.label_count graph.new ≡ G.label_count graph.old }
    ensures same_width { G.width graph.new ≡ G.width graph.old }
    ensures states { IfOk result (λ _. state_at (G.meaning graph.new) found.now.nodes
        ≡ state_at (G.meaning graph.old) found.now.nodes) }
    ensures verdict { IfOk result (IsVerdict (G.next graph.old) actors
        (state_at (G.meaning graph.old) found.now.nodes) found.now.complete) }
{
    match judge_numbers(alloc, graph, found, components.numbers.as_slice(), actors)? {
        Loops::NoLoop => Ok(Verdict::NoLoop),
        Loops::Unknown => Ok(Verdict::Unknown),
        Loops::Unfair => match any_loop(alloc, graph, found, components, actors, rows)? {
            Some(unfair) => Ok(Verdict::Unfair(unfair)),
            None => Ok(Verdict::Unknown),
        },
    }
}

/// The numbers below a count, the last one first.
fn backwards(alloc: Global, count: u32) -> Result<Vec<u32>, AllocError> {
    let mut numbers = Vec::with_capacity(alloc, count as usize)?;
    for number in 0..count {
        numbers.push(count - 1 - number)?;
    }
    Ok(numbers)
}

/// A fair loop of the first node that has one: all actors that have an edge there move inside its
/// component.
fn fair_loop<G: Graph>(
    alloc: Global,
    graph: &mut G,
    found: &Reached,
    components: &Components,
    actors: u32,
    rows: &mut [u32],
) -> Result<Option<FoundLoop>, AllocError>
    requires wide { found.now.width ≡ G.width graph.old }
    requires room { length rows.old ≡ G.width graph.old + G.width graph.old }
    requires few { actors ≤ MAX_ACTORS }
    requires labelled { actors ≤ G.label_count graph.old }
    requires even { length components.now.numbers.items ≡ length found.now.nodes }
    requires meant { AreMeant (state_at (G.meaning graph.old) found.now.nodes)
        (length found.now.nodes) }
    ensures same_graph { G.next graph.new ≡ G.next graph.old }
    ensures same_labels { G.label_count graph.new ≡ G.label_count graph.old }
    ensures same_width { G.width graph.new ≡ G.width graph.old }
    ensures states { state_at (G.meaning graph.new) found.now.nodes
        ≡ state_at (G.meaning graph.old) found.now.nodes }
    ensures meant { AreMeant (state_at (G.meaning graph.new) found.now.nodes)
        (length found.now.nodes) }
    ensures found { IfOk result (λ given. IfSome given (IsFoundFair (G.next graph.old) actors
        (state_at (G.meaning graph.old) found.now.nodes))) }
{
    for node in 0..found.len() {
        let movers = components.movers(node);
        if movers == 0 {
            continue;
        }
        let running = running_at(graph, found, node, actors, rows)?;
        if running & !movers != 0 {
            continue;
        }
        let wanted = Wanted {
            node,
            components: components.numbers.as_slice(),
            actors,
            all: if running == 0 { None } else { Some(running) },
        };
        match try_loop(alloc, graph, found, wanted, rows)? {
            Tried::Fair(found) => return Ok(Some(found)),
            Tried::Loop(_) | Tried::Nothing => {}
        }
    }
    Ok(None)
}

/// A loop of the first node that has one: some actor moves inside its component.
fn any_loop<G: Graph>(
    alloc: Global,
    graph: &mut G,
    found: &Reached,
    components: &Components,
    actors: u32,
    rows: &mut [u32],
) -> Result<Option<FoundLoop>, AllocError>
    requires wide { found.now.width ≡ G.width graph.old }
    requires room { length rows.old ≡ G.width graph.old + G.width graph.old }
    requires few { actors ≤ MAX_ACTORS }
    requires labelled { actors ≤ G.label_count graph.old }
    requires even { length components.now.numbers.items ≡ length found.now.nodes }
    requires meant { AreMeant (state_at (G.meaning graph.old) found.now.nodes)
        (length found.now.nodes) }
    ensures same_graph { G.next graph.new ≡ G.next graph.old }
    ensures same_labels { G.label_count graph.new ≡ G.label_count graph.old }
    ensures same_width { G.width graph.new ≡ G.width graph.old }
    ensures states { state_at (G.meaning graph.new) found.now.nodes
        ≡ state_at (G.meaning graph.old) found.now.nodes }
    ensures meant { AreMeant (state_at (G.meaning graph.new) found.now.nodes)
        (length found.now.nodes) }
    ensures found { IfOk result (λ given. IfSome given (IsFoundLoop (G.next graph.old) actors
        (state_at (G.meaning graph.old) found.now.nodes))) }
{
    for node in 0..found.len() {
        if components.movers(node) == 0 {
            continue;
        }
        let wanted = Wanted {
            node,
            components: components.numbers.as_slice(),
            actors,
            all: None,
        };
        match try_loop(alloc, graph, found, wanted, rows)? {
            Tried::Fair(found) => return Ok(Some(found)),
            Tried::Loop(found) => return Ok(Some(found)),
            Tried::Nothing => {}
        }
    }
    Ok(None)
}

/// The shortest loop that is wanted, once its labels were followed again.
fn try_loop<G: Graph>(
    alloc: Global,
    graph: &mut G,
    found: &Reached,
    wanted: Wanted<'_>,
    rows: &mut [u32],
) -> Result<Tried, AllocError>
    requires wide { found.now.width ≡ G.width graph.old }
    requires room { length rows.old ≡ G.width graph.old + G.width graph.old }
    requires labelled { wanted.actors ≤ G.label_count graph.old }
    requires even { length wanted.components.now ≡ length found.now.nodes }
    requires there { wanted.node < length found.now.nodes }
    requires meant { AreMeant (state_at (G.meaning graph.old) found.now.nodes)
        (length found.now.nodes) }
    ensures same_graph { G.next graph.new ≡ G.next graph.old }
    ensures same_labels { G.label_count graph.new ≡ G.label_count graph.old }
    ensures same_width { G.width graph.new ≡ G.width graph.old }
    ensures states { state_at (G.meaning graph.new) found.now.nodes
        ≡ state_at (G.meaning graph.old) found.now.nodes }
    ensures meant { AreMeant (state_at (G.meaning graph.new) found.now.nodes)
        (length found.now.nodes) }
    ensures tried { IfOk result (IsTried (G.next graph.old) wanted.entry.actors
        (state_at (G.meaning graph.old) found.now.nodes)) }
{
    let node = wanted.node;
    let Some(labels) = shortest_loop(alloc, graph, found, wanted, rows)? else {
        return Ok(Tried::Nothing);
    };
    match judge_labels(graph, found, node, labels.as_slice(), wanted.actors, rows)? {
        Round::NoLoop => Ok(Tried::Nothing),
        Round::Loop => Ok(Tried::Loop(FoundLoop { node, labels })),
        Round::FairLoop => Ok(Tried::Fair(FoundLoop { node, labels })),
    }
}
