//! Whether the harts that run go round for ever.
#![tactic(auto, unfolding(crate::specs::Hangs::all_stay))]

ghost use Rattle.std.specs.Prelude.{◌≡◌};
ghost use Rattle.cheri_model.specs.runs.Machine.{is_running};
ghost use Rattle.sample_draws.specs.Cycles.{cycle_from};
ghost use Rattle.sample_steps.specs.Hangs.{goes_round, stays, all_stay};

use crate::writes::{put_granule, step_hart};
use cheri_model::{Instr, Status};
use hart::Hart;
use sample_draws::Cycle;
use tagged_mem::Ram;

/// The steps within which a hart that is let on alone must come back.
pub const ALONE: u32 = 1_000;

/// Whether a hart runs.
pub fn runs(hart: &Hart) -> bool
    ensures { result ≡ is_running hart.now.status }
{
    match hart.status() {
        Status::Running => true,
        Status::Halted | Status::Trapped(_) => false,
    }
}

/// Whether a hart that is let on alone comes back to a state that it had, and changes no memory
/// until then. It leaves memory as it was.
fn goes_round(program: &[Instr], hart: &Hart, ram: &mut Ram) -> bool
    ensures value { result ≡ goes_round program.now ALONE (cycle_from hart.now) hart.now ram.old }
    ensures same { ram.new ≡ ram.old }
{
    let mut alone = *hart;
    let mut cycle = Cycle::from(hart);
    let mut left = ALONE;
    while left > 0 {
        match step_hart(program, &mut alone, ram) {
            None => {}
            Some(change) => {
                put_granule(ram, change.granule, change.value);
                return false;
            }
        }
        if !runs(&alone) {
            return false;
        }
        if cycle.is_back(&alone) {
            return true;
        }
        cycle.go_on(&alone);
        left -= 1;
    }
    false
}

/// Whether a hart goes round, if it runs.
fn stays(program: &[Instr], hart: &Hart, ram: &mut Ram) -> bool
    ensures value { result ≡ stays program.now ram.old hart.now }
    ensures same { ram.new ≡ ram.old }
{
    if !runs(hart) {
        return true;
    }
    goes_round(program, hart, ram)
}

/// Whether each of these harts that runs goes round.
pub fn all_stay(program: &[Instr], harts: &[Hart], ram: &mut Ram) -> bool
    ensures value { result ≡ all_stay program.now ram.old harts.now }
    ensures same { ram.new ≡ ram.old }
{
    for hart in harts {
        if !stays(program, hart, ram) {
            return false;
        }
    }
    true
}
