//! The strongly connected components of the nodes that a search found: two nodes are in the same
//! one where each leads to the other. (Tarjan's search, without recursion.)
//!
//! Nothing here is proved but that it ends and leaves the graph as it was: what is made of the
//! components is checked afterwards.

ghost use Rattle.std.specs.Prelude.{◌≡◌, ◌+◌, ◌<◌, ◌≤◌, length, IfOk};
ghost use Rattle.graph_search.specs.Trees.{state_at};
ghost use Rattle.graph_loops.specs.Loops.{AreMeant};

use graph_loops::target_of;
use graph_search::{Graph, Reached};
use std::alloc::{AllocError, Global};

/// No node, component or time.
pub const NONE: u32 = 0xFFFF_FFFF;

/// What is known of a node.
#[derive(Clone, Copy)]
pub struct Visit {
    /// When it was met, and the earliest time of a node on the path that it leads to.
    met: u32,
    earliest: u32,
    /// The number of its component, once all of that is known.
    component: u32,
    /// The next label to follow, and the node from which it was met.
    label: u32,
    from: u32,
    /// The node before it on the path of nodes without a component.
    below: u32,
}

/// A node that was not met.
const UNMET: Visit = Visit {
    met: NONE,
    earliest: NONE,
    component: NONE,
    label: 0,
    from: NONE,
    below: NONE,
};

/// Where the search is: the last node on the path, and how many nodes and components there are.
#[derive(Clone, Copy)]
struct Path {
    last: u32,
    met: u32,
    components: u32,
}

/// For each node the number of its component. Edges lead to components of the same number or a
/// smaller one. Fails only when out of memory, or of numbers.
pub fn components_of<G: Graph>(
    alloc: Global,
    graph: &mut G,
    found: &Reached,
    rows: &mut [u32],
) -> Result<Vec<u32>, AllocError>
    requires wide { found.now.width ≡ G.width graph.old }
    requires room { length rows.old ≡ G.width graph.old + G.width graph.old }
    requires meant { AreMeant (state_at (G.meaning graph.old) found.now.nodes)
        (length found.now.nodes) }
    ensures same_graph { G.next graph.new ≡ G.next graph.old }
    ensures same_labels { G.label_count graph.new ≡ G.label_count graph.old }
    ensures same_width { G.width graph.new ≡ G.width graph.old }
    ensures states { state_at (G.meaning graph.new) found.now.nodes
        ≡ state_at (G.meaning graph.old) found.now.nodes }
    ensures meant { AreMeant (state_at (G.meaning graph.new) found.now.nodes)
        (length found.now.nodes) }
    ensures even { IfOk result (λ numbers. length numbers.items ≡ length found.now.nodes) }
{
    let mut visits = Vec::new(alloc);
    visits.resize(found.len() as usize, UNMET)?;
    let mut path = Path {
        last: NONE,
        met: 0,
        components: 0,
    };
    for node in 0..found.len() {
        visit_from(graph, found, visits.as_mut_slice(), &mut path, node, rows)?;
    }
    let mut numbers = Vec::with_capacity(alloc, visits.len())?;
    for visit in &visits {
        numbers.push(visit.component)?;
    }
    Ok(numbers)
}

/// Meets all nodes to which a node leads, if it was not met.
fn visit_from<G: Graph>(
    graph: &mut G,
    found: &Reached,
    visits: &mut [Visit],
    path: &mut Path,
    root: u32,
    rows: &mut [u32],
) -> Result<(), AllocError>
    requires wide { found.now.width ≡ G.width graph.old }
    requires room { length rows.old ≡ G.width graph.old + G.width graph.old }
    requires meant { AreMeant (state_at (G.meaning graph.old) found.now.nodes)
        (length found.now.nodes) }
    requires even { length visits.old ≡ length found.now.nodes }
    requires there { root < length found.now.nodes }
    ensures same_graph { G.next graph.new ≡ G.next graph.old }
    ensures same_labels { G.label_count graph.new ≡ G.label_count graph.old }
    ensures same_width { G.width graph.new ≡ G.width graph.old }
    ensures states { state_at (G.meaning graph.new) found.now.nodes
        ≡ state_at (G.meaning graph.old) found.now.nodes }
    ensures meant { AreMeant (state_at (G.meaning graph.new) found.now.nodes)
        (length found.now.nodes) }
{
    if visits[root as usize].met != NONE {
        return Ok(());
    }
    meet(visits, path, root, NONE);
    let mut here = root;
    // Each node is entered once, each of its edges followed once, and each node left once.
    for _step in 0..u64::MAX {
        if here >= found.len() {
            break;
        }
        here = advance(graph, found, visits, path, here, rows)?;
    }
    Ok(())
}

/// Puts a node that was not met on the path.
fn meet(visits: &mut [Visit], path: &mut Path, node: u32, from: u32)
    requires { node < length visits.old }
{
    visits[node as usize] = Visit {
        met: path.met,
        earliest: path.met,
        component: NONE,
        label: 0,
        from,
        below: path.last,
    };
    path.last = node;
    path.met = path.met.wrapping_add(1);
}

/// Follows the next edge of a node, or leaves it where there are no more: gives the node to go on
/// with, or none at the end.
fn advance<G: Graph>(
    graph: &mut G,
    found: &Reached,
    visits: &mut [Visit],
    path: &mut Path,
    here: u32,
    rows: &mut [u32],
) -> Result<u32, AllocError>
    requires wide { found.now.width ≡ G.width graph.old }
    requires room { length rows.old ≡ G.width graph.old + G.width graph.old }
    requires meant { AreMeant (state_at (G.meaning graph.old) found.now.nodes)
        (length found.now.nodes) }
    requires even { length visits.old ≡ length found.now.nodes }
    requires there { here < length found.now.nodes }
    ensures same_graph { G.next graph.new ≡ G.next graph.old }
    ensures same_labels { G.label_count graph.new ≡ G.label_count graph.old }
    ensures same_width { G.width graph.new ≡ G.width graph.old }
    ensures states { state_at (G.meaning graph.new) found.now.nodes
        ≡ state_at (G.meaning graph.old) found.now.nodes }
    ensures meant { AreMeant (state_at (G.meaning graph.new) found.now.nodes)
        (length found.now.nodes) }
{
    let label = visits[here as usize].label;
    if label >= graph.label_count() {
        return Ok(leave(visits, path, here));
    }
    visits[here as usize].label = label + 1;
    match target_of(graph, found, here, label, rows)? {
        Some(to) => Ok(go_to(visits, path, here, to)),
        None => Ok(here),
    }
}

/// Goes along an edge: to a node that was not met, else notes how early its target was met.
fn go_to(visits: &mut [Visit], path: &mut Path, here: u32, to: u32) -> u32
    requires here { here < length visits.old }
    requires to { to < length visits.old }
{
    let target = visits[to as usize];
    if target.met == NONE {
        meet(visits, path, to, here);
        return to;
    }
    if target.component == NONE {
        let from = &mut visits[here as usize];
        from.earliest = from.earliest.min(target.met);
    }
    here
}

/// Leaves a node, and the path with it where it closes a component: gives the node from which it
/// was met.
fn leave(visits: &mut [Visit], path: &mut Path, here: u32) -> u32
    requires { here < length visits.old }
{
    let visit = visits[here as usize];
    if visit.earliest == visit.met {
        close(visits, path, here);
    }
    let from = visit.from;
    if (from as usize) < visits.len() {
        let caller = &mut visits[from as usize];
        caller.earliest = caller.earliest.min(visit.earliest);
    }
    from
}

/// Takes the nodes down to this one off the path: they are a component.
fn close(visits: &mut [Visit], path: &mut Path, first: u32) {
    let number = path.components;
    for _ in 0..visits.len() {
        let node = path.last;
        if node as usize >= visits.len() {
            break;
        }
        visits[node as usize].component = number;
        path.last = visits[node as usize].below;
        if node == first {
            break;
        }
    }
    path.components = number.wrapping_add(1);
}
