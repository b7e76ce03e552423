//! The check of a search: whether each step that it met respects owners of granules.

ghost use Rattle.std.specs.Prelude.{
  ◌≡◌,
  ℕ,
  ◌<◌,
  ◌≤◌,
  length,
  Some,
  IsSome,
  IfOk,
  true,
  not,
  ◌||◌,
};
ghost use Rattle.cheri_model.specs.runs.Machine.{MachineState, hart_at, is_running};
ghost use Rattle.explore_turns.specs.declared.quiet.TheConstants.{MAX_QUIET_STEPS};
ghost use Rattle.granule_states.specs.Graphs.{
  Learns,
  is_shared,
  owner_of,
  quiet_in,
  state_in,
  step_in,
};
ghost use Rattle.granule_states.specs.Owners.{EdgePasses, NodePasses, RespectSome, passes_in};
ghost use Rattle.graph_search.specs.Trees.{state_at};
ghost use Rattle.own_granules.specs.Granules.{may_touch};
ghost use Rattle.own_granules.specs.Rests.{rest_first, way_passes, ways_pass};

use crate::accesses::{Access, owner_of};
use crate::graph::{GranuleGraph, MOST_NUMBERS};
use crate::touches::guess_owners;
use explore_turns::MAX_QUIET_STEPS;
use graph_search::{Graph, Reached};
use hart::Hart;
use states::Room;
use std::alloc::{AllocError, Global};
use tagged_mem::Ram;

/// Whether owners allow what a step of a hart asks for, where it may be an access to a shared
/// granule, and else one to a granule of this owner.
fn allows(access: Access, shared: bool, owner: Option<u32>, hart: u32) -> bool
    ensures { result ≡ (not access.asks || (shared || may_touch owner hart access.stores)) }
{
    if !access.asks || shared {
        return true;
    }
    match owner {
        Some(owner) => owner == hart,
        None => !access.stores,
    }
}

impl GranuleGraph {
    /// Whether the next step of a hart in a row respects these owners.
    fn respects(&self, row: &[u32], hart: u32, owners: &[Option<u32>]) -> bool
        requires meant { IsSome (state_in self.now row.now) }
        requires hart { hart < length self.now.graph.image.harts }
        ensures { (s : MachineState) → state_in self.now row.now ≡ Some s → result ≡ true →
            is_running (hart_at s hart).status ≡ true →
            passes_in self.now owners.now s hart ≡ true }
    {
        match self.access(row, hart) {
            Some(access) => {
                let shared = self.asks_shared(access);
                let owner = owner_of(owners, access.granule);
                allows(access, shared, owner, hart)
            }
            None => true,
        }
    }

    /// Whether the quiet steps of a hart respect these owners, from a row on, which goes along.
    fn way_respects(
        &mut self,
        row: &mut [u32],
        hart: u32,
        owners: &[Option<u32>],
    ) -> Result<bool, AllocError>
        requires meant { IsSome (state_in self.old row.old) }
        requires hart { hart < length self.old.graph.image.harts }
        ensures learns { Learns self.old self.new }
        ensures way { IfOk result (λ passes. (s : MachineState) →
            state_in self.old row.old ≡ Some s → passes ≡ true →
            way_passes (step_in self.old) (quiet_in self.old) (passes_in self.old owners.now)
            hart MAX_QUIET_STEPS s ≡ true) }
    {
        for _ in 0..MAX_QUIET_STEPS + 1 {
            let respects = self.respects(row, hart, owners);
            if !self.quiet_step(row, hart)? {
                return Ok(true);
            }
            if !respects {
                return Ok(false);
            }
        }
        Ok(true)
    }

    /// The same, from a row that stays as it is.
    fn way_from_respects(
        &mut self,
        row: &[u32],
        hart: u32,
        owners: &[Option<u32>],
    ) -> Result<bool, AllocError>
        requires meant { IsSome (state_in self.old row.now) }
        requires hart { hart < length self.old.graph.image.harts }
        requires few { length row.now ≤ 9 }
        ensures learns { Learns self.old self.new }
        ensures way { IfOk result (λ passes. (s : MachineState) →
            state_in self.old row.now ≡ Some s → passes ≡ true →
            way_passes (step_in self.old) (quiet_in self.old) (passes_in self.old owners.now)
            hart MAX_QUIET_STEPS s ≡ true) }
    {
        let mut along = [0; MOST_NUMBERS];
        let along = &mut along[..row.len()];
        along.copy_from_slice(row);
        self.way_respects(along, hart, owners)
    }

    /// Whether the step of a label from a node, and the quiet steps after it, respect these owners.
    fn edge_respects(
        &mut self,
        node: &[u32],
        label: u32,
        owners: &[Option<u32>],
    ) -> Result<bool, AllocError>
        requires meant { IsSome (state_in self.old node.now) }
        requires labelled { label < length self.old.graph.image.harts }
        requires few { length node.now ≤ 9 }
        ensures learns { Learns self.old self.new }
        ensures edge { IfOk result (λ passes. (s : MachineState) →
            state_in self.old node.now ≡ Some s → passes ≡ true →
            EdgePasses self.old owners.now s label) }
    {
        let respects = self.respects(node, label, owners);
        let mut to = [0; MOST_NUMBERS];
        let to = &mut to[..node.len()];
        if !self.take_step(node, label, to)? {
            return Ok(true);
        }
        if !respects {
            return Ok(false);
        }
        self.way_respects(to, label, owners)
    }

    /// Whether this is so of all edges of a node.
    fn node_respects(&mut self, node: &[u32], owners: &[Option<u32>]) -> Result<bool, AllocError>
        requires meant { IsSome (state_in self.old node.now) }
        requires few { length node.now ≤ 9 }
        ensures learns { Learns self.old self.new }
        ensures node { IfOk result (λ passes. (s : MachineState) →
            state_in self.old node.now ≡ Some s → passes ≡ true →
            NodePasses self.old owners.now s) }
    {
        for label in 0..self.label_count() {
            if !self.edge_respects(node, label, owners)? {
                return Ok(false);
            }
        }
        Ok(true)
    }

    /// Whether each step from the nodes that a search reached, and each quiet step after it,
    /// respects these owners. Fails only when out of memory, or of numbers.
    pub(crate) fn nodes_respect(
        &mut self,
        reached: &Reached,
        owners: &[Option<u32>],
    ) -> Result<bool, AllocError>
        requires harts { length self.old.graph.image.harts ≤ 8 }
        requires few { reached.now.width ≤ 9 }
        requires meant { (i : ℕ) → i < length reached.now.nodes →
            IsSome (state_at (state_in self.old) reached.now.nodes i) }
        ensures learns { Learns self.old self.new }
        ensures nodes { IfOk result (λ passes. (i : ℕ) (s : MachineState) →
            state_at (state_in self.old) reached.now.nodes i ≡ Some s → passes ≡ true →
            NodePasses self.old owners.now s) }
    {
        for number in 0..reached.len() {
            let mut room = Room::new();
            let node = room.read(reached, number);
            if !self.node_respects(node, owners)? {
                return Ok(false);
            }
        }
        Ok(true)
    }

    /// Notes what the steps from the nodes that a search reached ask of memory.
    pub fn note_nodes(&mut self, reached: &Reached)
        requires few { reached.now.width ≤ 9 }
        requires meant { (i : ℕ) → i < length reached.now.nodes →
            IsSome (state_at (state_in self.old) reached.now.nodes i) }
        ensures { self.new ≡ self.old }
    {
        for number in 0..reached.len() {
            let mut room = Room::new();
            self.note_node(room.read(reached, number));
        }
    }

    /// Notes what the steps from a node ask of memory.
    fn note_node(&mut self, node: &[u32])
        requires { IsSome (state_in self.old node.now) }
        ensures { self.new ≡ self.old }
    {
        for hart in 0..self.label_count() {
            self.note_step(node, hart);
        }
    }

    /// Whether the quiet steps that bring all harts of a row to their rest, one after another,
    /// respect these owners. The row goes along. Fails as the other check does.
    pub(crate) fn opening_respects(
        &mut self,
        row: &mut [u32],
        owners: &[Option<u32>],
    ) -> Result<bool, AllocError>
        requires meant { IsSome (state_in self.old row.old) }
        requires few { length row.old ≤ 9 }
        ensures learns { Learns self.old self.new }
        ensures ways { IfOk result (λ passes. (s : MachineState) →
            state_in self.old row.old ≡ Some s → passes ≡ true →
            ways_pass (step_in self.old) (quiet_in self.old) (passes_in self.old owners.now)
            MAX_QUIET_STEPS (length self.old.graph.image.harts) s ≡ true) }
    {
        for hart in 0..self.label_count() {
            if !self.way_from_respects(row, hart, owners)? {
                return Ok(false);
            }
            self.settle(row, hart)?;
        }
        Ok(true)
    }

    /// Brings all harts of a row to their rest, one after another.
    pub fn settle_all(&mut self, row: &mut [u32]) -> Result<(), AllocError>
        requires meant { IsSome (state_in self.old row.old) }
        ensures learns { Learns self.old self.new }
        ensures same_room { length row.new ≡ length row.old }
        ensures rest { IfOk result (λ _. (s : MachineState) →
            state_in self.old row.old ≡ Some s → state_in self.new row.new
            ≡ Some (rest_first (step_in self.old) (quiet_in self.old) MAX_QUIET_STEPS
            (length self.old.graph.image.harts) s)) }
    {
        for hart in 0..self.label_count() {
            self.settle(row, hart)?;
        }
        Ok(())
    }

    /// Whether each step that a search met respects the owners that are guessed from what was
    /// noted: the quiet steps with which it began, from the state of these harts and this memory,
    /// each step from the nodes that it reached, and the quiet steps after it. A search that was
    /// cut is not looked at. Fails only when out of memory, or of numbers.
    pub fn are_owned(
        &mut self,
        alloc: Global,
        harts: &[Hart],
        ram: &Ram,
        reached: &Reached,
    ) -> Result<bool, AllocError>
        requires harts { length harts.now ≡ length self.old.graph.image.harts }
        requires size { length ram.now ≡ self.old.graph.store.granules }
        requires few_harts { length self.old.graph.image.harts ≤ 8 }
        requires few { reached.now.width ≤ 9 }
        requires meant { (i : ℕ) → i < length reached.now.nodes →
            IsSome (state_at (state_in self.old) reached.now.nodes i) }
        ensures learns { Learns self.old self.new }
        ensures complete { IfOk result (λ passes. passes ≡ true → reached.now.complete ≡ true) }
        ensures owned { IfOk result (λ passes. passes ≡ true → RespectSome self.old
            (record { harts = harts.now; memory = ram.now })
            (state_at (state_in self.old) reached.now.nodes)) }
    {
        if !reached.is_complete() {
            return Ok(false);
        }
        let owners = guess_owners(alloc, self.touches())?;
        let mut row = self.node(alloc, harts, ram)?;
        if !self.opening_respects(row.as_mut_slice(), owners.as_slice())? {
            return Ok(false);
        }
        let respect = self.nodes_respect(reached, owners.as_slice())?;
        Ok(respect)
    }
}
