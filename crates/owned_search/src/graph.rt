//! The graph of a machine's states in which each hart forgets the registers that don't matter, by
//! turns in which accesses to granules that aren't shared are quiet steps.

ghost use Rattle.std.specs.Prelude.{◌≡◌, ℕ, ◌+◌, ◌<◌, length, Some, IsSome, IfOk};
ghost use Rattle.cheri_model.specs.runs.Machine.{MachineState};
ghost use Rattle.forgotten_runs.specs.ForgottenRuns.{forgotten_state};
ghost use Rattle.graph_search.specs.Graphs.{LeadsTo};
ghost use Rattle.owned_search.specs.Graphs.{IsForgottenNumber, Remembers, state_in, turn_in};
ghost use Rattle.state_store.specs.Stores.{hart_at};

use crate::known::{keep_at, known_at};
use granule_states::GranuleGraph;
use graph_search::Graph;
use hart::Hart;
use live_registers::LiveRegisters;
use state_store::Store;
use std::alloc::{AllocError, Global};
use std::marker::Model;

/// The states of an image's machine in which each hart is at its rest and has forgotten, as a
/// graph: an edge for the turn of each hart that runs, after which all forget. In the turns
/// accesses to granules that aren't shared are quiet steps. Without sweeps.
#[derive(Drop)]
pub(crate) struct OwnedGraph<'a> {
    live: &'a LiveRegisters,
    graph: GranuleGraph,
    /// In the place of each hart's number that of what it forgets to be, once it is known.
    known: Vec<Option<u32>>,
    /// Any hart, to work in.
    blank: Hart,
}

impl<'a> Model for OwnedGraph<'a> {
    ghost use Rattle.owned_search.specs.Graphs.{ForgettingParts, IsForgetting};

    ghost Value = { ForgettingParts };

    ghost view = { λ a. record { live = a.live.now; graph = a.graph } };

    ghost invariant = { λ a. IsForgetting a.live.now a.graph.graph.store a.known.items };
}

impl<'a> OwnedGraph<'a> {
    /// The graph whose turns are those of another, to which these registers matter.
    pub fn new(alloc: Global, live: &'a LiveRegisters, graph: GranuleGraph) -> OwnedGraph<'a>
        ensures live { result.live ≡ live.now }
        ensures graph { result.graph ≡ graph }
    {
        let image = graph.image();
        // Its clause says that there are from 1 to 8 harts.
        let _granules = image.granules();
        let blank = Hart::open(&image.harts()[0]);
        OwnedGraph {
            live,
            graph,
            known: Vec::new(alloc),
            blank,
        }
    }

    /// The graph in which no hart forgets, of which its states are states.
    pub fn machine(&self) -> &GranuleGraph
        ensures { result.now ≡ self.now.graph }
    {
        &self.graph
    }

    /// The same, once nothing more is to be forgotten.
    pub fn into_machine(self) -> GranuleGraph
        ensures { result ≡ self.entry.graph }
    {
        self.graph
    }

    /// What the graph knows of its states.
    pub fn store(&self) -> &Store
        ensures { result.now ≡ self.now.graph.graph.store }
    {
        self.graph.store()
    }

    /// Lets each hart of a row forget. Fails only when out of memory, or of numbers, as all calls
    /// here that may add something.
    pub fn forget_harts(&mut self, row: &mut [u32]) -> Result<(), AllocError>
        requires { IsSome (state_in self.old row.old) }
        ensures remembers { Remembers self.old self.new }
        ensures size { length row.new ≡ length row.old }
        ensures forgotten { IfOk result (λ _. (s : MachineState) →
            state_in self.old row.old ≡ Some s →
            state_in self.new row.new ≡ Some (forgotten_state self.old.live s)) }
    {
        for place in 1..row.len() {
            let after = self.forgotten_number(row[place])?;
            row[place] = after;
        }
        Ok(())
    }

    /// The number of what the hart with this number forgets to be.
    fn forgotten_number(&mut self, hart: u32) -> Result<u32, AllocError>
        requires { IsSome (hart_at self.old.graph.graph.store hart) }
        ensures remembers { Remembers self.old self.new }
        ensures numbered { IfOk result
            (IsForgottenNumber self.old.live self.new.graph.graph.store hart) }
    {
        if let Some(after) = known_at(self.known.as_slice(), hart) {
            return Ok(after);
        }
        let mut forgotten = self.blank;
        self.graph.store().load_hart(hart, &mut forgotten);
        self.live.forget(&mut forgotten);
        let after = self.graph.number_hart(&forgotten)?;
        keep_at(&mut self.known, hart, after)?;
        Ok(after)
    }

    /// Follows the edge of a label.
    fn follow(&mut self, node: &[u32], label: u32, to: &mut [u32]) -> Result<bool, AllocError>
        requires meant { IsSome (state_in self.old node.now) }
        requires labelled { label < length self.old.graph.graph.image.harts }
        requires room { length to.old ≡ length self.old.graph.graph.image.harts + 1 }
        ensures remembers { Remembers self.old self.new }
        ensures value { IfOk result (λ leads. (s : MachineState) →
            state_in self.old node.now ≡ Some s → LeadsTo (state_in self.new) leads to.new
            (turn_in self.old s label)) }
    {
        if !self.graph.follow(node, label, to)? {
            return Ok(false);
        }
        self.forget_harts(to)?;
        Ok(true)
    }
}

impl Graph for OwnedGraph<'_> {
    ghost use Rattle.std.specs.Prelude.{◌+◌, length, Bool, None, option_map, if◌then◌else◌};
    ghost use Rattle.std.proofs.Common.{ap};
    ghost use Rattle.std.proofs.lemmas.Bool.{le-ltb};
    ghost use Rattle.granule_states.specs.Graphs.{is_shared};
    ghost use Rattle.owned_search.specs.Graphs.{PlacedState, placed_in, placed_turn};
    ghost use Rattle.owned_turns.specs.OwnedTurns.{owned_turn};

    ghost State = { PlacedState };

    ghost meaning = { λ g. placed_in g };

    ghost next = { λ g. placed_turn (length g.graph.graph.image.harts) };

    ghost width = { λ g. length g.graph.graph.image.harts + 1 };

    ghost label_count = { λ g. length g.graph.graph.image.harts };

    fn width(&self) -> usize {
        self.graph.width()
    }

    fn label_count(&self) -> u32 {
        self.graph.label_count()
    }

    fn step(&mut self, node: &[u32], label: u32, to: &mut [u32]) -> Result<bool, AllocError> {
        let leads = self.follow(node, label, to);
        // Its clause says that no state is two rows.
        let _granules = self.graph.store().granules();
        leads
    }

    ghost none_beyond = { λ g from l past.
        ap (λ (b : Bool). if b then option_map (λ state. record from { state = state })
        (owned_turn from.image (is_shared from.shared) from.sight from.live from.state l)
        else None) (le-ltb l (length g.graph.graph.image.harts) past) };
}
