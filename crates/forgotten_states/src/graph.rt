//! The graph of a machine's states in which each hart forgets the registers that don't matter, and
//! harts of one group stand in order.

ghost use Rattle.std.specs.Prelude.{◌≡◌, ℕ, ◌+◌, ◌<◌, [], length, Some, IsSome, IfOk};
ghost use Rattle.cheri_model.specs.runs.Machine.{MachineState};
ghost use Rattle.cheri_model.specs.steps.Hart.{HartState};
ghost use Rattle.explore_sights.specs.Sights.{hides};
ghost use Rattle.forgotten_runs.specs.ForgottenRuns.{forgotten_state};
ghost use Rattle.forgotten_states.specs.Graphs.{
  AreMoved,
  IsForgottenNumber,
  LeadsInOrder,
  Remembers,
  forgotten_in,
  state_in,
  turn_in,
};
ghost use Rattle.forgotten_turns.specs.ForgottenTurns.{HidesForgotten};
ghost use Rattle.graph_search.specs.Graphs.{LeadsTo};
ghost use Rattle.hart_order.specs.Arrangements.{arranged_state};
ghost use Rattle.live_registers.specs.LiveSets.{IsRight, forgotten_hart};
ghost use Rattle.state_store.specs.Stores.{hart_at};
ghost use Rattle.states.specs.Graphs.{rest_in, rests_in};

use crate::known::{keep_at, known_at};
use graph_search::Graph;
use hart::Hart;
use hart_order::{HartGroups, arrange_row, put_in_order};
use live_registers::LiveRegisters;
use state_store::Store;
use states::MachineGraph;
use std::alloc::{AllocError, Global};
use std::marker::Model;
use tagged_mem::Ram;

/// The states of an image's machine in which each hart is at its rest and has forgotten, and harts
/// of one group stand in order, as a graph: an edge for the turn of each hart that runs, after
/// which it forgets, and harts are put in order.
#[derive(Drop)]
pub struct ForgottenGraph<'a> {
    live: &'a LiveRegisters,
    groups: HartGroups,
    graph: MachineGraph,
    /// In the place of each hart's number that of what it forgets to be, once it is known.
    known: Vec<Option<u32>>,
    /// Any hart, to work in.
    blank: Hart,
}

impl<'a> Model for ForgottenGraph<'a> {
    ghost use Rattle.forgotten_states.specs.Graphs.{ForgottenParts, IsForgetting};

    ghost Value = { ForgottenParts };

    ghost view = { λ a. record { live = a.live.now; groups = a.groups; graph = a.graph } };

    ghost invariant = { λ a. IsForgetting a.live.now a.graph a.known.items };
}

impl<'a> ForgottenGraph<'a> {
    /// The graph whose turns are those of another, to which these registers matter, and for which
    /// harts of these groups may change places.
    pub fn new(
        alloc: Global,
        live: &'a LiveRegisters,
        groups: HartGroups,
        graph: MachineGraph,
    ) -> ForgottenGraph<'a>
        requires right { IsRight graph.image.program live.now }
        requires hidden { HidesForgotten live.now (hides graph.sight) }
        requires unswept { graph.sweeps ≡ [] }
        ensures live { result.live ≡ live.now }
        ensures groups { result.groups ≡ groups }
        ensures graph { result.graph ≡ graph }
    {
        let image = graph.image();
        // Its clause says that there are from 1 to 8 harts.
        let _granules = image.granules();
        let blank = Hart::open(&image.harts()[0]);
        ForgottenGraph {
            live,
            groups,
            graph,
            known: Vec::new(alloc),
            blank,
        }
    }

    /// The graph in which no hart forgets, of which its states are states.
    pub fn machine(&self) -> &MachineGraph
        ensures { result.now ≡ self.now.graph }
    {
        &self.graph
    }

    /// What the graph knows of its states.
    pub fn store(&self) -> &Store
        ensures { result.now ≡ self.now.graph.store }
    {
        self.graph.store()
    }

    /// The node of a state with each hart at its rest, in which each has forgotten, and harts of
    /// one group stand in order. Fails only when out of memory, or of numbers, as all calls here
    /// that may add something.
    pub fn node(&mut self, alloc: Global, harts: &[Hart], ram: &Ram) -> Result<Vec<u32>, AllocError>
        requires harts { length harts.now ≡ length self.old.graph.image.harts }
        requires size { length ram.now ≡ self.old.graph.store.granules }
        ensures node { IfOk result (λ node. state_in self.new node.items
            ≡ Some (arranged_state self.old.groups (forgotten_state self.old.live
            (rest_in self.old.graph (record { harts = harts.now; memory = ram.now }))))) }
        ensures remembers { Remembers self.old self.new }
    {
        let mut node = self.forgotten_node(alloc, harts, ram)?;
        put_in_order(self.graph.store(), &self.groups, node.as_mut_slice());
        Ok(node)
    }

    /// The same, where each hart's place goes with it.
    pub fn placed_node(
        &mut self,
        alloc: Global,
        harts: &[Hart],
        ram: &Ram,
        places: &mut [u32],
    ) -> Result<Vec<u32>, AllocError>
        requires harts { length harts.now ≡ length self.old.graph.image.harts }
        requires size { length ram.now ≡ self.old.graph.store.granules }
        requires places { length places.old ≡ length self.old.graph.image.harts }
        ensures node { IfOk result (λ node. state_in self.new node.items
            ≡ Some (arranged_state self.old.groups (forgotten_state self.old.live
            (rest_in self.old.graph (record { harts = harts.now; memory = ram.now }))))) }
        ensures moved { IfOk result (λ _. AreMoved self.old.groups
            (forgotten_state self.old.live (rest_in self.old.graph
            (record { harts = harts.now; memory = ram.now }))) places.old places.new) }
        ensures places { length places.new ≡ length places.old }
        ensures remembers { Remembers self.old self.new }
    {
        let mut node = self.forgotten_node(alloc, harts, ram)?;
        arrange_row(
            self.graph.store(),
            &self.groups,
            node.as_mut_slice(),
            places,
        );
        Ok(node)
    }

    /// The node of a state with each hart at its rest, in which each has forgotten.
    fn forgotten_node(
        &mut self,
        alloc: Global,
        harts: &[Hart],
        ram: &Ram,
    ) -> Result<Vec<u32>, AllocError>
        requires harts { length harts.now ≡ length self.old.graph.image.harts }
        requires size { length ram.now ≡ self.old.graph.store.granules }
        ensures node { IfOk result (λ node. state_in self.new node.items
            ≡ Some (forgotten_state self.old.live
            (rest_in self.old.graph (record { harts = harts.now; memory = ram.now })))) }
        ensures remembers { Remembers self.old self.new }
    {
        let mut node = self.graph.node(alloc, harts, ram)?;
        self.forget_harts(node.as_mut_slice())?;
        Ok(node)
    }

    /// Lets each hart forget in the row of a state at rest.
    fn forget_harts(&mut self, row: &mut [u32]) -> Result<(), AllocError>
        requires { (s : MachineState) × (state_in self.old row.old ≡ Some s)
            × (rest_in self.old.graph s ≡ s) }
        ensures remembers { Remembers self.old self.new }
        ensures size { length row.new ≡ length row.old }
        ensures forgotten { IfOk result (λ _. (s : MachineState) →
            state_in self.old row.old ≡ Some s →
            state_in self.new row.new ≡ Some (forgotten_state self.old.live s)) }
    {
        for place in 1..row.len() {
            let after = self.forgotten_number(row[place])?;
            row[place] = after;
        }
        Ok(())
    }

    /// The number of what the hart with this number, which is at its rest, forgets to be.
    fn forgotten_number(&mut self, hart: u32) -> Result<u32, AllocError>
        requires { (h : HartState) × (hart_at self.old.graph.store hart ≡ Some h)
            × (rests_in self.old.graph h ≡ h) }
        ensures remembers { Remembers self.old self.new }
        ensures numbered { IfOk result (IsForgottenNumber self.old.live self.new.graph.store hart) }
    {
        if let Some(after) = known_at(self.known.as_slice(), hart) {
            return Ok(after);
        }
        let mut forgotten = self.blank;
        self.graph.store().load_hart(hart, &mut forgotten);
        self.live.forget(&mut forgotten);
        let after = self.graph.number_hart(&forgotten)?;
        keep_at(&mut self.known, hart, after)?;
        Ok(after)
    }

    /// Takes the turn of a label, after which each hart forgets.
    fn take_turn(&mut self, node: &[u32], label: u32, to: &mut [u32]) -> Result<bool, AllocError>
        requires meant { IsSome (state_in self.old node.now) }
        requires labelled { label < length self.old.graph.image.harts
            + length self.old.graph.sweeps }
        requires room { length to.old ≡ length self.old.graph.image.harts + 1 }
        ensures remembers { Remembers self.old self.new }
        ensures value { IfOk result (λ leads. (s : MachineState) →
            state_in self.old node.now ≡ Some s → LeadsTo (state_in self.new) leads to.new
            (forgotten_in self.old s label)) }
    {
        if !self.graph.follow(node, label, to)? {
            return Ok(false);
        }
        self.forget_harts(to)?;
        Ok(true)
    }

    /// Follows the edge of a label.
    fn follow(&mut self, node: &[u32], label: u32, to: &mut [u32]) -> Result<bool, AllocError>
        requires meant { IsSome (state_in self.old node.now) }
        requires labelled { label < length self.old.graph.image.harts
            + length self.old.graph.sweeps }
        requires room { length to.old ≡ length self.old.graph.image.harts + 1 }
        ensures remembers { Remembers self.old self.new }
        ensures value { IfOk result (λ leads. (s : MachineState) →
            state_in self.old node.now ≡ Some s → LeadsTo (state_in self.new) leads to.new
            (turn_in self.old s label)) }
    {
        if !self.take_turn(node, label, to)? {
            return Ok(false);
        }
        put_in_order(self.graph.store(), &self.groups, to);
        Ok(true)
    }

    /// The same, where each hart's place goes with it.
    pub fn follow_placed(
        &mut self,
        node: &[u32],
        label: u32,
        to: &mut [u32],
        places: &mut [u32],
    ) -> Result<bool, AllocError>
        requires meant { IsSome (state_in self.old node.now) }
        requires labelled { label < length self.old.graph.image.harts
            + length self.old.graph.sweeps }
        requires room { length to.old ≡ length self.old.graph.image.harts + 1 }
        requires places { length places.old ≡ length self.old.graph.image.harts }
        ensures remembers { Remembers self.old self.new }
        ensures places { length places.new ≡ length places.old }
        ensures value { IfOk result (λ leads. (s : MachineState) →
            state_in self.old node.now ≡ Some s → LeadsInOrder self.new leads to.new places.old
            places.new (forgotten_in self.old s label)) }
    {
        if !self.take_turn(node, label, to)? {
            return Ok(false);
        }
        arrange_row(self.graph.store(), &self.groups, to, places);
        Ok(true)
    }
}

impl Graph for ForgottenGraph<'_> {
    ghost use Rattle.std.specs.Prelude.{◌+◌, length, option_map};
    ghost use Rattle.std.proofs.Common.{ap};
    ghost use Rattle.cheri_model.specs.runs.Machine.{MachineState};
    ghost use Rattle.explore_turns.proofs.OrderLemmas.{turn_beyond};
    ghost use Rattle.forgotten_runs.specs.ForgottenRuns.{forgotten_state};
    ghost use Rattle.forgotten_states.specs.Graphs.{state_in, turn_in};
    ghost use Rattle.hart_order.specs.Arrangements.{arranged_state};
    ghost use Rattle.schedules.specs.Schedules.{label_count};

    ghost State = { MachineState };

    ghost meaning = { λ g. state_in g };

    ghost next = { λ g. turn_in g };

    ghost width = { λ g. length g.graph.image.harts + 1 };

    ghost label_count = { λ g. label_count g.graph.image g.graph.sweeps };

    fn width(&self) -> usize {
        self.graph.width()
    }

    fn label_count(&self) -> u32 {
        self.graph.label_count()
    }

    fn step(&mut self, node: &[u32], label: u32, to: &mut [u32]) -> Result<bool, AllocError> {
        let leads = self.follow(node, label, to);
        // Its clause says that no state is two rows.
        let _granules = self.graph.store().granules();
        leads
    }

    ghost none_beyond = { λ g s l past. ap (option_map (arranged_state g.groups))
        (ap (option_map (forgotten_state g.live))
        (turn_beyond g.graph.image g.graph.sweeps g.graph.sight s l past)) };
}
