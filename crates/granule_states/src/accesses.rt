//! What the next step of a hart asks of memory, and which granules are shared.
#![tactic(auto, using(crate::proofs::Places::past_end), unfolding(crate::proofs::Unfold::accesses))]

ghost use Rattle.std.specs.Prelude.{◌≡◌, ◌*◌, ◌<◌, ◌≤◌, true};
ghost use Rattle.cheri_model.specs.runs.Machine.{is_running};
ghost use Rattle.explore_turns.specs.QuietSteps.{asks_memory};
ghost use Rattle.granule_states.specs.Graphs.{is_shared, owner_of};
ghost use Rattle.instructions.specs.Actions.{action_of};
ghost use Rattle.own_granules.specs.Granules.{asks_store, is_store};
ghost use Rattle.states.specs.Locals.{touched};

use cheri_model::Instr;
use explore_turns::asks_memory;
use hart::Hart;
use hart_step::fetch;
use instructions::{Action, instr_action};
use states::site_of;

/// What the next step of a hart asks of memory: whether it asks for an access, to which granule,
/// and whether it stores, also where it would trap.
#[derive(Clone, Copy)]
pub struct Access {
    pub asks: bool,
    pub granule: u32,
    pub stores: bool,
}

/// Whether an action stores.
fn is_store(action: Action) -> bool
    ensures { result ≡ is_store (action_of action) }
{
    match action {
        Action::Store { .. } | Action::StoreCap { .. } | Action::Swap { .. } => true,
        Action::Load { .. }
        | Action::LoadCap { .. }
        | Action::Put { .. }
        | Action::Branch { .. }
        | Action::Jump { .. }
        | Action::JumpThrough { .. }
        | Action::Invoke { .. }
        | Action::Halt => false,
    }
}

/// Whether a hart's next step fetches an instruction that asks for a store or a swap, also for one
/// that would trap.
fn asks_store(program: &[Instr], hart: &Hart) -> bool
    ensures { result ≡ asks_store program.now hart.now }
{
    match fetch(program, hart.pcc()) {
        Ok(instr) => is_store(instr_action(instr, hart)),
        Err(_) => false,
    }
}

/// What the next step of a hart that runs asks of a memory of so many granules.
pub fn access_of(program: &[Instr], granules: usize, hart: &Hart) -> Access
    requires some { 0 < granules }
    requires few { granules ≤ 65536 }
    requires runs { is_running hart.now.status ≡ true }
    ensures asks { result.asks ≡ asks_memory program.now hart.now }
    ensures granule { result.granule ≡ touched program.now granules hart.now }
    ensures stores { result.stores ≡ asks_store program.now hart.now }
{
    Access {
        asks: asks_memory(program, hart),
        granule: site_of(program, granules, hart),
        stores: asks_store(program, hart),
    }
}

/// Whether a granule is shared. Those past the end are.
pub fn is_shared(shared: &[bool], granule: u32) -> bool
    ensures { result ≡ is_shared shared.now granule }
{
    let place = granule as usize;
    if place >= shared.len() {
        return true;
    }
    shared[place]
}

/// The only hart that may touch a granule, if there is one.
pub fn owner_of(owners: &[Option<u32>], granule: u32) -> Option<u32>
    ensures { result ≡ owner_of owners.now granule }
{
    let place = granule as usize;
    if place >= owners.len() {
        return None;
    }
    owners[place]
}
