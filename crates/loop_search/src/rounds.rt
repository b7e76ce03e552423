//! The shortest loop of a node inside its component, and of those the least.
//!
//! Nothing here is proved but that it ends and leaves the graph as it was: the labels are followed
//! again afterwards.

ghost use Rattle.std.specs.Prelude.{◌≡◌, ◌+◌, ◌<◌, ◌≤◌, length, Some, IfOk, IfSome};
ghost use Rattle.graph_search.specs.Trees.{state_at};
ghost use Rattle.graph_loops.specs.Loops.{AreMeant};

use graph_loops::{has_edge, target_of};
use graph_search::{Edge, Graph, Reached};
use interner::Interner;
use std::alloc::{AllocError, Global};

/// The most actors that a search for loops takes.
pub const MAX_ACTORS: u32 = 32;

/// The set of this actor alone.
fn one(actor: u32) -> u32
    requires { actor < MAX_ACTORS }
{
    1 << actor
}

/// Which actors have an edge at a node, as a set of bits.
pub fn running_at<G: Graph>(
    graph: &mut G,
    found: &Reached,
    node: u32,
    actors: u32,
    rows: &mut [u32],
) -> Result<u32, AllocError>
    requires wide { found.now.width ≡ G.width graph.old }
    requires room { length rows.old ≡ G.width graph.old + G.width graph.old }
    requires few { actors ≤ MAX_ACTORS }
    requires labelled { actors ≤ G.label_count graph.old }
    requires there { node < length found.now.nodes }
    requires meant { AreMeant (state_at (G.meaning graph.old) found.now.nodes)
        (length found.now.nodes) }
    ensures same_graph { G.next graph.new ≡ G.next graph.old }
    ensures same_labels { G.label_count graph.new ≡ G.label_count graph.old }
    ensures same_width { G.width graph.new ≡ G.width graph.old }
    ensures states { state_at (G.meaning graph.new) found.now.nodes
        ≡ state_at (G.meaning graph.old) found.now.nodes }
    ensures meant { AreMeant (state_at (G.meaning graph.new) found.now.nodes)
        (length found.now.nodes) }
{
    let mut running = 0;
    for actor in 0..actors {
        if has_edge(graph, found, node, actor, rows)? {
            running |= one(actor);
        }
    }
    Ok(running)
}

/// For each component the actors that have an edge inside it, as a set of bits.
pub fn movers_of<G: Graph>(
    alloc: Global,
    graph: &mut G,
    found: &Reached,
    components: &[u32],
    actors: u32,
    rows: &mut [u32],
) -> Result<Vec<u32>, AllocError>
    requires wide { found.now.width ≡ G.width graph.old }
    requires room { length rows.old ≡ G.width graph.old + G.width graph.old }
    requires few { actors ≤ MAX_ACTORS }
    requires labelled { actors ≤ G.label_count graph.old }
    requires even { length components.now ≡ length found.now.nodes }
    requires meant { AreMeant (state_at (G.meaning graph.old) found.now.nodes)
        (length found.now.nodes) }
    ensures same_graph { G.next graph.new ≡ G.next graph.old }
    ensures same_labels { G.label_count graph.new ≡ G.label_count graph.old }
    ensures same_width { G.width graph.new ≡ G.width graph.old }
    ensures states { state_at (G.meaning graph.new) found.now.nodes
        ≡ state_at (G.meaning graph.old) found.now.nodes }
    ensures meant { AreMeant (state_at (G.meaning graph.new) found.now.nodes)
        (length found.now.nodes) }
{
    let mut movers = Vec::new(alloc);
    movers.resize(components.len(), 0)?;
    for node in 0..found.len() {
        let component = components[node as usize];
        let moving = moving_at(graph, found, components, node, actors, rows)?;
        if let Some(all) = movers.get_mut(component as usize) {
            *all |= moving;
        }
    }
    Ok(movers)
}

/// Which actors have an edge at a node that leads to its own component.
fn moving_at<G: Graph>(
    graph: &mut G,
    found: &Reached,
    components: &[u32],
    node: u32,
    actors: u32,
    rows: &mut [u32],
) -> Result<u32, AllocError>
    requires wide { found.now.width ≡ G.width graph.old }
    requires room { length rows.old ≡ G.width graph.old + G.width graph.old }
    requires few { actors ≤ MAX_ACTORS }
    requires labelled { actors ≤ G.label_count graph.old }
    requires even { length components.now ≡ length found.now.nodes }
    requires there { node < length found.now.nodes }
    requires meant { AreMeant (state_at (G.meaning graph.old) found.now.nodes)
        (length found.now.nodes) }
    ensures same_graph { G.next graph.new ≡ G.next graph.old }
    ensures same_labels { G.label_count graph.new ≡ G.label_count graph.old }
    ensures same_width { G.width graph.new ≡ G.width graph.old }
    ensures states { state_at (G.meaning graph.new) found.now.nodes
        ≡ state_at (G.meaning graph.old) found.now.nodes }
    ensures meant { AreMeant (state_at (G.meaning graph.new) found.now.nodes)
        (length found.now.nodes) }
{
    let mut moving = 0;
    for actor in 0..actors {
        if let Some(to) = target_of(graph, found, node, actor, rows)? {
            if components[to as usize] == components[node as usize] {
                moving |= one(actor);
            }
        }
    }
    Ok(moving)
}

/// The places that a search for a loop met: a node and the actors that took an edge on the way,
/// each with the place and label from which it was met.
#[derive(Drop)]
struct Places {
    rows: Interner,
    edges: Vec<Edge>,
    ghost wide: { rows.width ≡ 2 },
}

impl Places {
    /// Nothing but a node, on no way.
    fn new(alloc: Global, node: u32) -> Result<Places, AllocError> {
        let mut places = Places {
            rows: Interner::new(alloc, 2),
            edges: Vec::new(alloc),
        };
        places.add(node, 0, Edge { from: 0, label: 0 })?;
        Ok(places)
    }

    /// Adds a place, unless it was met.
    fn add(&mut self, node: u32, taken: u32, edge: Edge) -> Result<(), AllocError> {
        let before = self.rows.len();
        self.rows.insert(&[node, taken])?;
        if self.rows.len() > before {
            self.edges.push(edge)?;
        }
        Ok(())
    }

    /// The place with this number: its node, and the actors.
    fn place(&self, number: u32) -> Option<(u32, u32)> {
        match self.rows.row(number) {
            Some(&[node, taken]) => Some((node, taken)),
            _ => None,
        }
    }

    /// The labels that lead to a place from the first one, and one more.
    fn labels(&self, alloc: Global, place: u32, last: u32) -> Result<Vec<u32>, AllocError> {
        let mut labels = Vec::new(alloc);
        labels.push(last)?;
        let mut here = place as usize;
        // Each place was met from an earlier one.
        for _ in 0..self.edges.len() {
            if here == 0 || here >= self.edges.len() {
                break;
            }
            labels.push(self.edges[here].label)?;
            here = self.edges[here].from as usize;
        }
        labels.reverse();
        Ok(labels)
    }
}

/// A loop that is looked for: of this node, through its component, with an edge of each of the
/// actors of a set, or of any actor.
#[derive(Clone, Copy)]
pub struct Wanted<'a> {
    pub node: u32,
    pub components: &'a [u32],
    pub actors: u32,
    pub all: Option<u32>,
}

impl Wanted<'_> {
    /// What counts of the actors that took an edge, after one more edge: those of the set, or
    /// whether there are any.
    fn taken(self, before: u32, label: u32) -> u32 {
        if label >= self.actors || label >= MAX_ACTORS {
            return before;
        }
        match self.all {
            Some(all) => before | one(label) & all,
            None => 1,
        }
    }

    /// Whether a way back to the node is such a loop.
    fn is_done(self, taken: u32) -> bool {
        taken == self.all.unwrap_or(1)
    }
}

/// The labels of the shortest such loop, and of those the least, if there is one.
pub fn shortest_loop<G: Graph>(
    alloc: Global,
    graph: &mut G,
    found: &Reached,
    wanted: Wanted<'_>,
    rows: &mut [u32],
) -> Result<Option<Vec<u32>>, AllocError>
    requires wide { found.now.width ≡ G.width graph.old }
    requires room { length rows.old ≡ G.width graph.old + G.width graph.old }
    requires even { length wanted.components.now ≡ length found.now.nodes }
    requires there { wanted.node < length found.now.nodes }
    requires meant { AreMeant (state_at (G.meaning graph.old) found.now.nodes)
        (length found.now.nodes) }
    ensures same_graph { G.next graph.new ≡ G.next graph.old }
    ensures same_labels { G.label_count graph.new ≡ G.label_count graph.old }
    ensures same_width { G.width graph.new ≡ G.width graph.old }
    ensures states { state_at (G.meaning graph.new) found.now.nodes
        ≡ state_at (G.meaning graph.old) found.now.nodes }
    ensures meant { AreMeant (state_at (G.meaning graph.new) found.now.nodes)
        (length found.now.nodes) }
{
    let mut places = Places::new(alloc, wanted.node)?;
    for number in 0..u32::MAX {
        let Some(place) = places.place(number) else {
            break;
        };
        if place.0 >= found.len() {
            break;
        }
        if let Some(label) = expand(graph, found, wanted, &mut places, number, place, rows)? {
            return Ok(Some(places.labels(alloc, number, label)?));
        }
    }
    Ok(None)
}

/// Adds the places to which the edges of a place lead. Gives the label of the one that ends a loop,
/// if one does.
fn expand<G: Graph>(
    graph: &mut G,
    found: &Reached,
    wanted: Wanted<'_>,
    places: &mut Places,
    number: u32,
    place: (u32, u32),
    rows: &mut [u32],
) -> Result<Option<u32>, AllocError>
    requires wide { found.now.width ≡ G.width graph.old }
    requires room { length rows.old ≡ G.width graph.old + G.width graph.old }
    requires even { length wanted.components.now ≡ length found.now.nodes }
    requires start { wanted.node < length found.now.nodes }
    requires there { place.0 < length found.now.nodes }
    requires meant { AreMeant (state_at (G.meaning graph.old) found.now.nodes)
        (length found.now.nodes) }
    ensures same_graph { G.next graph.new ≡ G.next graph.old }
    ensures same_labels { G.label_count graph.new ≡ G.label_count graph.old }
    ensures same_width { G.width graph.new ≡ G.width graph.old }
    ensures states { state_at (G.meaning graph.new) found.now.nodes
        ≡ state_at (G.meaning graph.old) found.now.nodes }
    ensures meant { AreMeant (state_at (G.meaning graph.new) found.now.nodes)
        (length found.now.nodes) }
{
    for label in 0..graph.label_count() {
        let Some(to) = target_of(graph, found, place.0, label, rows)? else {
            continue;
        };
        if wanted.components[to as usize] != wanted.components[wanted.node as usize] {
            continue;
        }
        let taken = wanted.taken(place.1, label);
        if to == wanted.node && wanted.is_done(taken) {
            return Ok(Some(label));
        }
        places.add(
            to,
            taken,
            Edge {
                from: number,
                label,
            },
        )?;
    }
    Ok(None)
}
