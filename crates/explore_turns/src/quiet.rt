//! Quiet steps, and where they lead.

ghost use Rattle.std.specs.Prelude.{◌≡◌, Some, None, false, if◌then◌else◌};
ghost use Rattle.explore_sights.specs.Sights.{hides};
ghost use Rattle.explore_turns.specs.QuietSteps.{
  asks_memory,
  is_access,
  is_quiet,
  is_whole,
  own_step,
  rest,
};
ghost use Rattle.instructions.specs.Actions.{action_of};

use cheri_model::{Instr, Status};
use explore_sights::Sight;
use hart::Hart;
use hart_step::{fetch, step};
use instructions::{Action, instr_action};
use schedules::SweepRange;
use tagged_mem::Ram;

/// The most quiet steps that lead to a hart's rest.
pub const MAX_QUIET_STEPS: u32 = 1000;

/// Whether an action loads or stores.
fn is_access(action: Action) -> bool
    ensures { result ≡ is_access (action_of action) }
{
    match action {
        Action::Load { .. }
        | Action::Store { .. }
        | Action::LoadCap { .. }
        | Action::StoreCap { .. }
        | Action::Swap { .. } => true,
        Action::Put { .. }
        | Action::Branch { .. }
        | Action::Jump { .. }
        | Action::JumpThrough { .. }
        | Action::Invoke { .. }
        | Action::Halt => false,
    }
}

/// Whether a hart's next step fetches an instruction that asks for an access, also for one that
/// would trap.
#[tactic(auto, unfolding(crate::specs::QuietSteps::asks_memory))]
pub fn asks_memory(program: &[Instr], hart: &Hart) -> bool
    ensures { result ≡ asks_memory program.now hart.now }
{
    match fetch(program, hart.pcc()) {
        Ok(instr) => is_access(instr_action(instr, hart)),
        Err(_) => false,
    }
}

/// Whether no sweep of these clears a tag of a hart.
fn is_whole(sweeps: &[SweepRange], hart: &Hart) -> bool
    ensures { result ≡ is_whole sweeps.now hart.now }
{
    for range in sweeps {
        let mut swept = *hart;
        if swept.sweep(range.lo, range.hi) > 0 {
            return false;
        }
    }
    true
}

/// The hart after its next step, which asks for no access. `ram` is any memory, to work in.
fn own_step(program: &[Instr], hart: &Hart, ram: &mut Ram) -> Hart
    requires { asks_memory program.now hart.now ≡ false }
    ensures ram { ram.new ≡ ram.old }
    ensures value { result ≡ own_step program.now hart.now }
{
    let mut after = *hart;
    step(program, &mut after, ram);
    after
}

/// The hart after its next step, where that is quiet. `ram` is any memory, to work in.
#[tactic(auto, unfolding(crate::specs::QuietSteps::is_quiet))]
pub(crate) fn quiet_step(
    program: &[Instr],
    sweeps: &[SweepRange],
    sight: &Sight,
    hart: &Hart,
    ram: &mut Ram,
) -> Option<Hart>
    ensures ram { ram.new ≡ ram.old }
    ensures value { result ≡ (if is_quiet program.now sweeps.now (hides sight.now) hart.now
        then Some (own_step program.now hart.now) else None) }
{
    match hart.status() {
        Status::Running => {}
        Status::Halted | Status::Trapped(_) => return None,
    }
    if asks_memory(program, hart) {
        return None;
    }
    if !is_whole(sweeps, hart) {
        return None;
    }
    let after = own_step(program, hart, ram);
    if !is_whole(sweeps, &after) {
        return None;
    }
    if !sight.hides(hart, &after) {
        return None;
    }
    Some(after)
}

/// A hart at its rest: after its quiet steps, or as it is where there are more than
/// `MAX_QUIET_STEPS`. `ram` is any memory, to work in.
pub fn rest(
    program: &[Instr],
    sweeps: &[SweepRange],
    sight: &Sight,
    hart: &Hart,
    ram: &mut Ram,
) -> Hart
    ensures ram { ram.new ≡ ram.old }
    ensures value { result
        ≡ rest program.now sweeps.now (hides sight.now) MAX_QUIET_STEPS hart.now }
{
    let mut at = *hart;
    for _ in 0..MAX_QUIET_STEPS {
        let Some(next) = quiet_step(program, sweeps, sight, &at, ram) else {
            return at;
        };
        at = next;
    }
    match quiet_step(program, sweeps, sight, &at, ram) {
        Some(_) => *hart,
        None => at,
    }
}
