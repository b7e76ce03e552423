//! The graph of a machine's states by turns in which accesses to granules that aren't shared are
//! quiet steps.

ghost use Rattle.std.specs.Prelude.{
  ◌≡◌,
  ℕ,
  ◌+◌,
  ◌*◌,
  ◌<◌,
  ◌&&◌,
  [],
  length,
  replicate,
  if◌then◌else◌,
  Some,
  IsSome,
  IfOk,
  IfSome,
  true,
};
ghost use Rattle.cheri_model.specs.runs.Machine.{MachineState, hart_at, is_running};
ghost use Rattle.cheri_model.specs.steps.Hart.{HartState};
ghost use Rattle.explore_sights.specs.Sights.{hides};
ghost use Rattle.explore_turns.specs.declared.quiet.TheConstants.{MAX_QUIET_STEPS};
ghost use Rattle.graph_search.specs.Graphs.{LeadsTo};
ghost use Rattle.granule_states.specs.Accesses.{IsAccess};
ghost use Rattle.granule_states.specs.Graphs.{
  Learns,
  is_shared,
  quiet_in,
  state_in,
  step_in,
  turn_in,
};
ghost use Rattle.own_granules.specs.Orders.{way_labels};
ghost use Rattle.own_granules.specs.Rests.{rest_one};
ghost use Rattle.schedules.specs.Schedules.{next};
ghost use Rattle.state_store.specs.Stores as stores;

use crate::accesses::{Access, access_of, is_shared};
use crate::touches::{Touches, UNTOUCHED, guess_shared, has_own, note};
use cheri_model::{Image, Status};
use explore_sights::Sight;
use explore_turns::MAX_QUIET_STEPS;
use graph_search::Graph;
use hart::Hart;
use state_store::Store;
use states::MachineGraph;
use std::alloc::{AllocError, Global};
use std::marker::Model;
use tagged_mem::Ram;

/// The most numbers that a node has: one for its memory, and one for each hart.
pub(crate) const MOST_NUMBERS: usize = 9;

/// The states of an image's machine, as a graph: an edge for the turn of each hart that runs, where
/// accesses to granules that aren't shared are quiet steps. Without sweeps.
#[derive(Drop)]
pub struct GranuleGraph {
    /// The graph of all steps.
    graph: MachineGraph,
    sight: Sight,
    /// For each granule whether it is shared.
    shared: Vec<bool>,
    /// Any hart, and a node, to work in.
    blank: Hart,
    row: Vec<u32>,
    /// Who touched which granule, as far as it was noted.
    touches: Vec<Touches>,
}

impl Model for GranuleGraph {
    ghost use Rattle.granule_states.specs.Graphs.{GranuleParts, IsGranuleGraph};

    ghost Value = { GranuleParts };

    ghost view = { λ a. record {
      graph = a.graph;
      sight = a.sight;
      shared = a.shared.items;
    } };

    ghost invariant = { λ a. IsGranuleGraph a.graph a.row.items };
}

/// Whether a hart runs.
fn runs(hart: &Hart) -> bool
    ensures { result ≡ is_running hart.now.status }
{
    match hart.status() {
        Status::Running => true,
        Status::Halted | Status::Trapped(_) => false,
    }
}

impl GranuleGraph {
    /// The graph of an image, for a question that sees this, where these granules are shared.
    /// Nothing is known of its states yet. `ram` is a memory of the image's size, to work in.
    pub fn new(
        alloc: Global,
        image: Image,
        sight: Sight,
        shared: Vec<bool>,
        ram: Ram,
    ) -> Result<GranuleGraph, AllocError>
        requires size { 16 * length ram ≡ image.ram }
        ensures image { IfOk result (λ graph. graph.graph.image ≡ image) }
        ensures granules { IfOk result (λ graph. graph.graph.store.granules ≡ length ram) }
        ensures sight { IfOk result (λ graph. graph.sight ≡ sight) }
        ensures shared { IfOk result (λ graph. graph.shared ≡ shared.items) }
    {
        // Its clause says that there are from 1 to 8 harts.
        let _granules = image.granules();
        let blank = Hart::open(&image.harts()[0]);
        let mut row = Vec::new(alloc);
        row.resize(image.harts().len() + 1, 0)?;
        let mut touches = Vec::new(alloc);
        touches.resize(ram.granule_count(), UNTOUCHED)?;
        let graph = MachineGraph::new(alloc, image, Vec::new(alloc), Sight::EveryStep, ram)?;
        Ok(GranuleGraph {
            graph,
            sight,
            shared,
            blank,
            row,
            touches,
        })
    }

    /// What the graph knows of its states.
    pub fn store(&self) -> &Store
        ensures store { result.now ≡ self.now.graph.store }
        ensures size { 16 * result.now.granules ≡ self.now.graph.image.ram }
    {
        self.graph.store()
    }

    /// The image.
    pub fn image(&self) -> &Image
        ensures { result.now ≡ self.now.graph.image }
    {
        self.graph.image()
    }

    /// What the question sees.
    pub fn sight(&self) -> &Sight
        ensures { result.now ≡ self.now.sight }
    {
        &self.sight
    }

    /// The node of a state. Fails only when out of memory, or of numbers, as all calls here that
    /// may add something.
    pub fn node(&mut self, alloc: Global, harts: &[Hart], ram: &Ram) -> Result<Vec<u32>, AllocError>
        requires harts { length harts.now ≡ length self.old.graph.image.harts }
        requires size { length ram.now ≡ self.old.graph.store.granules }
        ensures learns { Learns self.old self.new }
        ensures node { IfOk result (λ node. state_in self.new node.items
            ≡ Some (record { harts = harts.now; memory = ram.now })) }
    {
        let node = self.graph.node(alloc, harts, ram)?;
        Ok(node)
    }

    /// The number of a hart.
    pub fn number_hart(&mut self, hart: &Hart) -> Result<u32, AllocError>
        ensures learns { Learns self.old self.new }
        ensures numbered { IfOk result (λ number.
            stores.hart_at self.new.graph.store number ≡ Some hart.now) }
    {
        let number = self.graph.number_hart(hart)?;
        Ok(number)
    }

    /// What the next step of the hart with this number in a row asks of memory, if it runs.
    pub(crate) fn access(&self, row: &[u32], hart: u32) -> Option<Access>
        requires meant { IsSome (state_in self.now row.now) }
        requires hart { hart < length self.now.graph.image.harts }
        ensures { (s : MachineState) → state_in self.now row.now ≡ Some s →
            IsAccess self.now.graph.image (hart_at s hart) result }
    {
        // Its clause says how large RAM may be.
        let _granules = self.graph.image().granules();
        let mut state = self.blank;
        self.store().load_hart(row[hart as usize + 1], &mut state);
        if !runs(&state) {
            return None;
        }
        let granules = self.store().granules();
        Some(access_of(self.graph.image().program(), granules, &state))
    }

    /// Whether it is an access to a shared granule that a step asks for.
    pub(crate) fn asks_shared(&self, access: Access) -> bool
        ensures { result ≡ (access.asks && is_shared self.now.shared access.granule) }
    {
        access.asks && is_shared(self.shared.as_slice(), access.granule)
    }

    /// Whether the question doesn't see the step of a hart between these two numbers of it.
    fn hides(&self, before: u32, after: u32) -> bool
        requires before { IsSome (stores.hart_at self.now.graph.store before) }
        requires after { IsSome (stores.hart_at self.now.graph.store after) }
        ensures { (h g : HartState) → stores.hart_at self.now.graph.store before ≡ Some h →
            stores.hart_at self.now.graph.store after ≡ Some g → result ≡ hides self.now.sight h g }
    {
        if let Sight::NoStep = self.sight {
            return true;
        }
        let mut first = self.blank;
        self.store().load_hart(before, &mut first);
        let mut last = self.blank;
        self.store().load_hart(after, &mut last);
        self.sight.hides(&first, &last)
    }

    /// Takes the next step of a hart in a row, where that is quiet.
    pub(crate) fn quiet_step(&mut self, row: &mut [u32], hart: u32) -> Result<bool, AllocError>
        requires meant { IsSome (state_in self.old row.old) }
        requires hart { hart < length self.old.graph.image.harts }
        ensures learns { Learns self.old self.new }
        ensures quiet { IfOk result (λ moves. (s : MachineState) →
            state_in self.old row.old ≡ Some s → moves ≡ quiet_in self.old s hart) }
        ensures row { IfOk result (λ moves. (s : MachineState) →
            state_in self.old row.old ≡ Some s → state_in self.new row.new
            ≡ Some (if moves then step_in self.old s hart else s)) }
    {
        let Some(access) = self.access(row, hart) else {
            return Ok(false);
        };
        if self.asks_shared(access) {
            return Ok(false);
        }
        if !self.graph.follow(row, hart, self.row.as_mut_slice())? {
            return Ok(false);
        }
        let before = row[hart as usize + 1];
        let after = self.row[hart as usize + 1];
        if !self.hides(before, after) {
            return Ok(false);
        }
        row.copy_from_slice(self.row.as_slice());
        note(&mut self.touches, hart, access);
        Ok(true)
    }

    /// Brings a hart to its rest in a row. Answers how many quiet steps that took.
    pub(crate) fn settle(&mut self, row: &mut [u32], hart: u32) -> Result<u32, AllocError>
        requires meant { IsSome (state_in self.old row.old) }
        requires hart { hart < length self.old.graph.image.harts }
        ensures learns { Learns self.old self.new }
        ensures rest { IfOk result (λ _. (s : MachineState) → state_in self.old row.old ≡ Some s →
            state_in self.new row.new
            ≡ Some (rest_one (step_in self.old) (quiet_in self.old) MAX_QUIET_STEPS hart s)) }
        ensures same_room { length row.new ≡ length row.old }
        ensures way { IfOk result (λ count. (s : MachineState) →
            state_in self.old row.old ≡ Some s → replicate count hart
            ≡ way_labels (step_in self.old) (quiet_in self.old) MAX_QUIET_STEPS hart s) }
    {
        // Its clause says that there are at most 8 harts.
        let _granules = self.graph.image().granules();
        let mut home = [0; MOST_NUMBERS];
        let home = &mut home[..row.len()];
        home.copy_from_slice(row);
        for count in 0..MAX_QUIET_STEPS {
            if !self.quiet_step(row, hart)? {
                return Ok(count);
            }
        }
        if !self.quiet_step(row, hart)? {
            return Ok(MAX_QUIET_STEPS);
        }
        row.copy_from_slice(home);
        Ok(0)
    }

    /// Takes the step of a label alone.
    pub(crate) fn take_step(
        &mut self,
        node: &[u32],
        label: u32,
        to: &mut [u32],
    ) -> Result<bool, AllocError>
        requires meant { IsSome (state_in self.old node.now) }
        requires labelled { label < length self.old.graph.image.harts }
        requires room { length to.old ≡ length self.old.graph.image.harts + 1 }
        ensures learns { Learns self.old self.new }
        ensures value { IfOk result (λ leads. (s : MachineState) →
            state_in self.old node.now ≡ Some s → LeadsTo (state_in self.new) leads to.new
            (next self.old.graph.image [] s label)) }
    {
        let leads = self.graph.follow(node, label, to)?;
        Ok(leads)
    }

    /// Notes what the next step of the hart with this number in a row asks of memory.
    pub(crate) fn note_step(&mut self, row: &[u32], hart: u32)
        requires meant { IsSome (state_in self.old row.now) }
        requires hart { hart < length self.old.graph.image.harts }
        ensures { self.new ≡ self.old }
    {
        if let Some(access) = self.access(row, hart) {
            note(&mut self.touches, hart, access);
        }
    }

    /// Who touched which granule: of the quiet steps that were taken, and of what was noted.
    pub(crate) fn touches(&self) -> &[Touches] {
        self.touches.as_slice()
    }

    /// For each granule whether it is shared.
    pub fn shared(&self) -> &[bool]
        ensures { result.now ≡ self.now.shared }
    {
        self.shared.as_slice()
    }

    /// The shared granules with those that two harts were noted at, of which one stored, if there
    /// are more of them than before. Fails only when out of memory.
    pub fn more_shared(&self, alloc: Global) -> Result<Option<Vec<bool>>, AllocError>
        ensures { IfOk result (λ found. IfSome found (λ more. (granule : ℕ) →
            is_shared self.now.shared granule ≡ true → is_shared more.items granule ≡ true)) }
    {
        guess_shared(alloc, self.touches.as_slice(), self.shared.as_slice())
    }

    /// Whether a granule that isn't shared was noted: so some accesses were quiet.
    pub fn owns(&self) -> bool {
        has_own(self.touches.as_slice(), self.shared.as_slice())
    }

    /// Follows the edge of a label, as the graph's `step` does.
    pub fn follow(&mut self, node: &[u32], label: u32, to: &mut [u32]) -> Result<bool, AllocError>
        requires meant { IsSome (state_in self.old node.now) }
        requires labelled { label < length self.old.graph.image.harts }
        requires room { length to.old ≡ length self.old.graph.image.harts + 1 }
        ensures learns { Learns self.old self.new }
        ensures value { IfOk result (λ leads. (s : MachineState) →
            state_in self.old node.now ≡ Some s → LeadsTo (state_in self.new) leads to.new
            (turn_in self.old s label)) }
    {
        if !self.graph.follow(node, label, to)? {
            return Ok(false);
        }
        self.settle(to, label)?;
        Ok(true)
    }
}

impl Graph for GranuleGraph {
    ghost use Rattle.std.specs.Prelude.{◌+◌, [], length, Bool, None, option_map, if◌then◌else◌};
    ghost use Rattle.std.proofs.Common.{ap};
    ghost use Rattle.std.proofs.lemmas.Bool.{le-ltb};
    ghost use Rattle.explore_sights.specs.Sights.{hides};
    ghost use Rattle.explore_turns.specs.declared.quiet.TheConstants.{MAX_QUIET_STEPS};
    ghost use Rattle.granule_states.specs.Graphs.{Placed, is_shared, placed_in, placed_turn};
    ghost use Rattle.own_granules.specs.Turns.{turn};

    ghost State = { Placed };

    ghost meaning = { λ g. placed_in g };

    ghost next = { λ g. placed_turn (length g.graph.image.harts) };

    ghost width = { λ g. length g.graph.image.harts + 1 };

    ghost label_count = { λ g. length g.graph.image.harts };

    fn width(&self) -> usize {
        self.graph.width()
    }

    fn label_count(&self) -> u32 {
        self.graph.label_count()
    }

    fn step(&mut self, node: &[u32], label: u32, to: &mut [u32]) -> Result<bool, AllocError> {
        let leads = self.follow(node, label, to);
        // Its clause says that no state is two rows.
        let _granules = self.graph.store().granules();
        leads
    }

    ghost none_beyond = { λ g from l past.
        ap (λ (b : Bool). if b then option_map (λ state. record from { state = state })
        (turn from.image [] (is_shared from.shared) (hides from.sight) MAX_QUIET_STEPS from.state l)
        else None) (le-ltb l (length g.graph.image.harts) past) };
}
