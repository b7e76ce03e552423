//! Sweeps of a core's harts, and why a sweep is refused.
#![tactic(auto, unfolding(crate::specs::Cores::refused))]

ghost use Rattle.std.specs.Prelude.{◌≡◌, ◌≤◌, ◌*◌, length, map, sum_by};
ghost use Rattle.cheri_model.specs.declared.operation.Op.TheVariants.{Sweep};
ghost use Rattle.cheri_model.specs.runs.Sweeps.{swept_hart, cleared_in_hart};
ghost use Rattle.cores.specs.Cores.{CoreParts, refused};

use crate::faults::StepFault;
use cheri_model::ADDRESS_SPACE;
use hart_step::Hart;

/// Why a sweep would be refused, where the trace has this many events.
pub fn refusal_of_sweep(events: usize, limit: u32, lo: u64, hi: u128) -> Option<StepFault>
    ensures { (core : CoreParts) → length core.trace ≡ events → core.limit ≡ limit
        → result ≡ refused core (Sweep lo hi) }
{
    if u128::from(lo) > hi {
        return Some(StepFault::BadRange);
    }
    if hi > ADDRESS_SPACE {
        return Some(StepFault::BadRange);
    }
    if events >= limit as usize {
        return Some(StepFault::TraceFull);
    }
    None
}

/// Sweeps these harts, and counts the tags cleared in them.
pub fn sweep_harts(harts: &mut [Hart], lo: u64, hi: u128) -> u32
    requires { length harts.old ≤ 8 }
    ensures harts { harts.new ≡ map (swept_hart lo hi) harts.old }
    ensures cleared { result ≡ sum_by (cleared_in_hart lo hi) harts.old }
    ensures few { result ≤ 8 * 33 }
{
    let mut cleared = 0;
    for hart in harts.iter_mut() {
        cleared += hart.sweep(lo, hi);
    }
    cleared
}
