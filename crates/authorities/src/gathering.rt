//! What a holder has over all states.

ghost use Rattle.std.specs.Prelude.{
  ◌≡◌,
  ◌≢◌,
  ℕ,
  ◌+◌,
  ◌<◌,
  ◌≤◌,
  [],
  ◌∷◌,
  length,
  slice_get,
  slice_index_or,
  Some,
  true,
  false,
  IfOk,
};
ghost use Rattle.cheri_model.specs.runs.Machine.{MachineState};
ghost use Rattle.graph_search.specs.Trees.{state_at};
ghost use Rattle.states.specs.Graphs.{state_in};
ghost use Rattle.authorities.specs.Authorities.{AreGreatest, values_of};
ghost use Rattle.authorities.specs.Holders.{place_of};
ghost use Rattle.authorities.specs.Gathering.{AreApart, AreMarked, Gathers, IsGathering};

use crate::greatest::add;
use crate::holders::Holder;
use crate::rights::Authority;
use cap_ops::Cap;
use explore_rights::Rights;
use graph_search::Reached;
use state_store::Store;
use states::{MachineGraph, Room};
use std::alloc::{AllocError, Global};

/// The greatest rights that were gathered, and which values and which parts of states were looked
/// at.
#[derive(Drop)]
struct Gathering {
    greatest: Vec<Authority>,
    values: Vec<bool>,
    parts: Vec<bool>,
}

/// Whether there is a mark at a number.
fn is_marked(marks: &[bool], number: u32) -> bool
    ensures { result ≡ slice_index_or marks.now number false }
{
    let number = number as usize;
    number < marks.len() && marks[number]
}

/// Puts a mark at a number.
fn mark(marks: &mut Vec<bool>, number: u32) -> Result<(), AllocError>
    ensures { IfOk result (λ _. (k : ℕ) → k ≢ number →
        slice_index_or marks.new.items k false ≡ slice_index_or marks.old.items k false) }
{
    let number = number as usize;
    if number >= marks.len() {
        marks.resize(number + 1, false)?;
    }
    marks[number] = true;
    Ok(())
}

/// Adds the rights of a value that is held in a state, if it is tagged.
fn add_value(
    alloc: Global,
    store: &Store,
    greatest: &mut Vec<Authority>,
    id: u32,
    state: u32,
) -> Result<(), AllocError>
    requires there { id < length store.now.values }
    requires apart { AreApart greatest.old.items }
    ensures { IfOk result (λ _. Gathers store.now.values (id ∷ []) state
        greatest.old.items greatest.new.items) }
{
    let cap = Cap::of_value(store.value(id));
    if !cap.tag() {
        return Ok(());
    }
    add(alloc, greatest, Rights::of(cap), state)?;
    Ok(())
}

/// Gathers a value that is held in a state, unless it was looked at.
fn gather_value(
    alloc: Global,
    store: &Store,
    gathering: &mut Gathering,
    id: u32,
    state: u32,
) -> Result<(), AllocError>
    requires there { id < length store.now.values }
    requires apart { AreApart gathering.old.greatest.items }
    requires marked { AreMarked store.now.values gathering.old.greatest.items
        gathering.old.values.items }
    ensures gathers { IfOk result (λ _. Gathers store.now.values (id ∷ []) state
        gathering.old.greatest.items gathering.new.greatest.items) }
    ensures marked { IfOk result (λ _. AreMarked store.now.values gathering.new.greatest.items
        gathering.new.values.items) }
    ensures same_parts { gathering.new.parts.items ≡ gathering.old.parts.items }
{
    if is_marked(gathering.values.as_slice(), id) {
        return Ok(());
    }
    add_value(alloc, store, &mut gathering.greatest, id, state)?;
    mark(&mut gathering.values, id)?;
    Ok(())
}

/// Gathers the values with these numbers, which are held in a state.
fn gather_values(
    alloc: Global,
    store: &Store,
    gathering: &mut Gathering,
    ids: &[u32],
    state: u32,
) -> Result<(), AllocError>
    requires there { (k id : ℕ) → slice_get ids.now k ≡ Some id → id < length store.now.values }
    requires apart { AreApart gathering.old.greatest.items }
    requires marked { AreMarked store.now.values gathering.old.greatest.items
        gathering.old.values.items }
    ensures gathers { IfOk result (λ _. Gathers store.now.values ids.now state
        gathering.old.greatest.items gathering.new.greatest.items) }
    ensures marked { IfOk result (λ _. AreMarked store.now.values gathering.new.greatest.items
        gathering.new.values.items) }
    ensures same_parts { gathering.new.parts.items ≡ gathering.old.parts.items }
{
    for id in ids {
        gather_value(alloc, store, gathering, *id, state)?;
    }
    Ok(())
}

/// Gathers what is held in a state, unless the holder's part of it was looked at.
fn gather_state(
    alloc: Global,
    graph: &MachineGraph,
    found: &Reached,
    who: Holder,
    gathering: &mut Gathering,
    state: u32,
) -> Result<(), AllocError>
    requires few { found.now.width ≤ 9 }
    requires place { place_of who ≤ length graph.now.image.harts }
    requires meant { (s : MachineState)
        × (state_at (state_in graph.now) found.now.nodes state ≡ Some s) }
    requires before { IsGathering (state_at (state_in graph.now) found.now.nodes) who
        graph.now.store gathering.old.greatest.items gathering.old.values.items
        gathering.old.parts.items state }
    ensures after { IfOk result (λ _. IsGathering
        (state_at (state_in graph.now) found.now.nodes) who
        graph.now.store gathering.new.greatest.items gathering.new.values.items
        gathering.new.parts.items (state + 1)) }
{
    let mut room = Room::new();
    let row = room.read(found, state);
    let part = who.part(row);
    if is_marked(gathering.parts.as_slice(), part) {
        return Ok(());
    }
    let ids = who.numbers(graph, row);
    gather_values(alloc, graph.store(), gathering, ids, state)?;
    mark(&mut gathering.parts, part)?;
    Ok(())
}

/// The greatest rights that a holder has over all states that a search found. Fails only when out
/// of memory.
pub fn greatest_of(
    alloc: Global,
    graph: &MachineGraph,
    found: &Reached,
    who: Holder,
) -> Result<Vec<Authority>, AllocError>
    requires few { found.now.width ≤ 9 }
    requires place { place_of who ≤ length graph.now.image.harts }
    requires meant { (i : ℕ) → i < length found.now.nodes →
        (s : MachineState) × (state_at (state_in graph.now) found.now.nodes i ≡ Some s) }
    ensures { IfOk result (λ list. AreGreatest (state_at (state_in graph.now) found.now.nodes)
        (values_of who) list.items) }
{
    let mut gathering = Gathering {
        greatest: Vec::new(alloc),
        values: Vec::new(alloc),
        parts: Vec::new(alloc),
    };
    for state in 0..found.len() {
        gather_state(alloc, graph, found, who, &mut gathering, state)?;
    }
    Ok(gathering.greatest)
}
