//! A walk of a search, by the numbers that the harts have in the machine.

ghost use Rattle.std.specs.Prelude.{
  ◌≡◌,
  ℕ,
  ◌<◌,
  ◌≤◌,
  length,
  slice_get,
  slice_index_or,
  Some,
  IsSome,
  true,
  IfOk,
};
ghost use Rattle.cheri_model.specs.runs.Machine.{MachineState, opening_state};
ghost use Rattle.explore_sights.specs.Sights.{hides};
ghost use Rattle.forgotten_states.specs.Graphs.{forgotten_in, state_in};
ghost use Rattle.forgotten_turns.specs.ForgottenTurns.{HidesForgotten};
ghost use Rattle.graph_search.specs.Walks.{IsWalk};
ghost use Rattle.hart_order.specs.Arrangements.{IsUngrouped, arranged_state, place_in};
ghost use Rattle.hart_order.specs.GroupedTurns.{grouped_start, grouped_turn, machine_labels};
ghost use Rattle.hart_symmetry.specs.Symmetry.{own_labels};
ghost use Rattle.live_registers.specs.LiveSets.{IsRight};

use crate::graph::ForgottenGraph;
use crate::nodes::{Turns, graph_of};
use cheri_model::Image;
use cores::Core;
use hart_order::HartGroups;
use std::alloc::{AllocError, Global};

/// Whether no hart is of a group.
fn is_ungrouped(groups: &HartGroups) -> bool
    ensures { result ≡ true → IsUngrouped groups.now }
{
    for hart in 0..groups.len() {
        if groups[hart] != 0 {
            return false;
        }
    }
    true
}

/// The machine of an image before its first step. Fails only when out of memory.
fn opened(alloc: Global, image: &Image) -> Result<Core, AllocError>
    ensures { IfOk result (λ core. core.state ≡ opening_state image.now) }
{
    match Core::boot(alloc, image.copy(alloc)?, 1) {
        Ok(core) => Ok(core),
        Err(_) => Err(AllocError),
    }
}

/// Places where each hart stands in its own. Fails only when out of memory.
fn own_places(alloc: Global, count: usize) -> Result<Vec<u32>, AllocError>
    requires { count ≤ 8 }
    ensures count { IfOk result (λ places. length places.items ≡ count) }
    ensures own { IfOk result (λ places. (i : ℕ) → slice_index_or places.items i i ≡ i) }
{
    let mut places = Vec::with_capacity(alloc, count)?;
    for place in 0..count {
        places.push(place as u32)?;
    }
    Ok(places)
}

/// The labels of a walk of a graph, by the numbers that the harts have in the machine, where
/// `places` has those of the harts of the state in `row`. Both go along. Fails only when out of
/// memory, or of numbers.
fn replay(
    alloc: Global,
    graph: &mut ForgottenGraph<'_>,
    row: &mut [u32],
    places: &mut [u32],
    labels: &[u32],
) -> Result<Vec<u32>, AllocError>
    requires meant { IsSome (state_in graph.old row.old) }
    requires places { length places.old ≡ length graph.old.graph.image.harts }
    requires labels { (i label : ℕ) → slice_get labels.now i ≡ Some label →
        label < length graph.old.graph.image.harts }
    ensures { IfOk result (λ own. (s : MachineState) → state_in graph.old row.old ≡ Some s →
        own.items ≡ own_labels (forgotten_in graph.old) (arranged_state graph.old.groups)
        (place_in graph.old.groups) (λ i. slice_index_or places.old i i) s labels.now) }
{
    let mut own = Vec::with_capacity(alloc, labels.len())?;
    let mut to = Vec::from_slice(alloc, row)?;
    for label in labels {
        own.push(places[*label as usize])?;
        if !graph.follow_placed(row, *label, to.as_mut_slice(), places)? {
            return Ok(own);
        }
        row.copy_from_slice(to.as_slice());
    }
    Ok(own)
}

/// The labels of a walk of turns, which is taken once more from the image's opening state, which
/// `core` has: each turn puts harts in order, and so moves them.
fn take_again(
    alloc: Global,
    turns: Turns<'_>,
    core: &Core,
    labels: &[u32],
) -> Result<Vec<u32>, AllocError>
    requires opening { core.now.state ≡ opening_state turns.image.now }
    requires right { IsRight turns.image.now.program turns.live.now }
    requires hidden { HidesForgotten turns.live.now (hides turns.sees.now) }
    requires labels { (i label : ℕ) → slice_get labels.now i ≡ Some label →
        label < length turns.image.now.harts }
    ensures { IfOk result (λ own. own.items ≡ machine_labels turns.entry.image.now
        turns.entry.sees.now turns.entry.live.now turns.entry.groups labels.now) }
{
    // Its clause says that there are at most 8 harts.
    let _granules = turns.image.granules();
    let view = core.view();
    let mut graph = graph_of(alloc, turns, view.ram)?;
    let mut places = own_places(alloc, view.harts.len())?;
    let mut row = graph.placed_node(alloc, view.harts, view.ram, places.as_mut_slice())?;
    replay(
        alloc,
        &mut graph,
        row.as_mut_slice(),
        places.as_mut_slice(),
        labels,
    )
}

/// The labels of a walk of turns, by the numbers that the harts have in the machine. They are the
/// same where there are no groups. Fails only when out of memory, or of numbers.
pub(crate) fn machine_labels(
    alloc: Global,
    turns: Turns<'_>,
    labels: Vec<u32>,
) -> Result<Vec<u32>, AllocError>
    requires right { IsRight turns.image.now.program turns.live.now }
    requires hidden { HidesForgotten turns.live.now (hides turns.sees.now) }
    requires walk { (s : MachineState) × IsWalk
        (grouped_turn turns.image.now turns.sees.now turns.live.now turns.groups)
        (grouped_start turns.image.now turns.sees.now turns.live.now turns.groups) labels.items s }
    ensures { IfOk result (λ own. own.items ≡ machine_labels turns.entry.image.now
        turns.entry.sees.now turns.entry.live.now turns.entry.groups labels.items) }
{
    if is_ungrouped(&turns.groups) {
        return Ok(labels);
    }
    let core = opened(alloc, turns.image)?;
    take_again(alloc, turns, &core, labels.as_slice())
}
