//! The sweeps of a command line, and those that a listing allows.
#![tactic(auto, unfolding(crate::proofs::Unfold::sweeps))]

ghost use Rattle.std.specs.Prelude.{◌≡◌, IfOk, OnOk, map};
ghost use Rattle.sample_slices.specs.Sweeps.{is_among, range_of, same_range, united, with_range};

use cheri_model::NoMemory;
use explore_sweeps::Sweep;
use schedules::SweepRange;
use std::alloc::Global;

/// The range of a sweep.
pub(crate) fn range_of(sweep: Sweep) -> SweepRange
    ensures { result ≡ range_of sweep }
{
    SweepRange {
        lo: sweep.lo,
        hi: sweep.hi,
    }
}

/// Whether two ranges are the same.
pub(crate) fn is_same(range: SweepRange, other: SweepRange) -> bool
    ensures { result ≡ same_range range other }
{
    range.lo == other.lo && range.hi == other.hi
}

/// Whether a range is among others.
#[tactic(auto, using(crate::proofs::SweepLemmas::among))]
fn is_among(ranges: &[SweepRange], range: SweepRange) -> bool
    ensures { result ≡ is_among ranges.now range }
{
    for other in ranges {
        if is_same(*other, range) {
            return true;
        }
    }
    false
}

/// Adds a range, unless it is there.
fn add(ranges: &mut Vec<SweepRange>, range: SweepRange) -> Result<(), NoMemory>
    ensures { OnOk result (ranges.new.items ≡ with_range ranges.old.items range) }
{
    if is_among(ranges.as_slice(), range) {
        return Ok(());
    }
    ranges.push(range)?;
    Ok(())
}

/// Ranges, and then those of a listing's sweeps, each once. Fails only when out of memory.
pub fn unite_sweeps(
    alloc: Global,
    given: &[SweepRange],
    more: &[Sweep],
) -> Result<Vec<SweepRange>, NoMemory>
    ensures { IfOk result (λ ranges. ranges.items ≡ united given.now (map range_of more.now)) }
{
    let mut ranges = Vec::new(alloc);
    for range in given {
        add(&mut ranges, *range)?;
    }
    for sweep in more {
        add(&mut ranges, range_of(*sweep))?;
    }
    Ok(ranges)
}
