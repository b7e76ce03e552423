//! The ranges of sweeps.
ghost use Rattle.std.specs.Prelude.{◌≡◌, IfOk, map};
ghost use Rattle.explore_program.specs.Questions.{range_of};

use cheri_model::NoMemory;
use explore_line::Sweep;
use schedules::SweepRange;
use std::alloc::Global;

/// The range of a sweep.
fn range_of(sweep: Sweep) -> SweepRange
    ensures { result ≡ range_of sweep }
{
    SweepRange {
        lo: sweep.lo,
        hi: sweep.hi,
    }
}

/// The ranges of sweeps.
pub fn ranges_of(alloc: Global, sweeps: &[Sweep]) -> Result<Vec<SweepRange>, NoMemory>
    ensures { IfOk result (λ ranges. ranges.items ≡ map range_of sweeps.now) }
{
    let mut ranges = Vec::with_capacity(alloc, sweeps.len())?;
    for sweep in sweeps {
        ranges.push(range_of(*sweep))?;
    }
    Ok(ranges)
}
