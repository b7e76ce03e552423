//! The greatest capabilities that are held.

ghost use Rattle.std.specs.Prelude.{◌≡◌, ℕ, ◌<◌, ◌≤◌, Some, length, slice_get, IfOk, IfSome};
ghost use Rattle.states.specs.Kept.{at};
ghost use Rattle.states.specs.Graphs.{state_in};
ghost use Rattle.graph_search.specs.Trees.{state_at};
ghost use Rattle.cheri_model.specs.runs.Machine.{MachineState};
ghost use Rattle.authorities.specs.Authorities.{AreGreatest, hart_values, memory_values};

use crate::gathering::greatest_of;
use crate::holders::Holder;
use crate::rights::Authority;
use graph_search::Reached;
use states::{Kept, MachineGraph};
use std::alloc::{AllocError, Global};

/// The greatest rights that each hart holds, one list a hart, and those that memory does: each list
/// ascending by base, then by top descending, then by permissions as a number. With them the states
/// in which they are held.
#[derive(Drop)]
pub struct Authorities {
    pub kept: Kept,
    pub harts: Vec<Vec<Authority>>,
    pub memory: Vec<Authority>,
}

/// The greatest rights that are held over all kept states, by tagged capabilities, sealed or not:
/// of each hart in its registers and PCC, stopped harts too, and of memory in its granules. The
/// states are given back. Fails only when out of memory, and then drops them.
pub fn authorities_of(alloc: Global, kept: Kept) -> Result<Authorities, AllocError>
    ensures kept { IfOk result (λ found. found.kept ≡ kept) }
    ensures harts { IfOk result (λ found.
        length found.harts.items ≡ length kept.image.harts) }
    ensures hart { IfOk result (λ found. (number : ℕ) →
        IfSome (slice_get found.harts.items number) (λ list.
        AreGreatest (at kept) (hart_values number) list.items)) }
    ensures memory { IfOk result (λ found.
        AreGreatest (at kept) memory_values found.memory.items) }
{
    let parts = kept.into_parts();
    // Its clause says that there are at most 8 harts.
    let _granules = parts.image.granules();
    let count = parts.image.harts().len() as u32;
    let harts = hart_authorities(alloc, &parts.graph, &parts.reached, count)?;
    let memory = greatest_of(alloc, &parts.graph, &parts.reached, Holder::Memory)?;
    let kept = Kept::from_parts(parts);
    Ok(Authorities {
        kept,
        harts,
        memory,
    })
}

/// The greatest rights that each of so many harts has over all states that a search found, one list
/// a hart. Fails only when out of memory.
pub fn hart_authorities(
    alloc: Global,
    graph: &MachineGraph,
    found: &Reached,
    count: u32,
) -> Result<Vec<Vec<Authority>>, AllocError>
    requires few { found.now.width ≤ 9 }
    requires count { count ≤ length graph.now.image.harts }
    requires meant { (i : ℕ) → i < length found.now.nodes →
        (s : MachineState) × (state_at (state_in graph.now) found.now.nodes i ≡ Some s) }
    ensures count { IfOk result (λ lists. length lists.items ≡ count) }
    ensures lists { IfOk result (λ lists. (number : ℕ) →
        IfSome (slice_get lists.items number) (λ list.
        AreGreatest (state_at (state_in graph.now) found.now.nodes) (hart_values number)
        list.items)) }
{
    let mut lists = Vec::new(alloc);
    for number in 0..count {
        lists.push(greatest_of(alloc, graph, found, Holder::Hart(number))?)?;
    }
    Ok(lists)
}
