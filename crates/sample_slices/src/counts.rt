//! Whether counts add up.
#![tactic(auto, unfolding(crate::proofs::Unfold::counts))]

ghost use Rattle.std.specs.Prelude.{◌≡◌, ◌==◌, ◌<◌, All, IfOk, Some, length, map, slice_get};
ghost use Rattle.sample_tallies.specs.Sums.{ends_in_order};
ghost use Rattle.sample_slices.specs.Claimed.{adds_up, ended, runs_of};

use cheri_model::NoMemory;
use sample_tallies::{Seen, Tally};
use std::alloc::Global;

/// How many runs.
fn runs_of(seen: Option<Seen>) -> u64
    ensures { result ≡ runs_of seen }
{
    match seen {
        None => 0,
        Some(seen) => seen.runs,
    }
}

/// Whether so many runs ended, where this is the order of the ends.
fn are_ended(tally: &Tally, order: &[u32], runs: u64) -> bool
    requires sorted { map (slice_get tally.now.sum.ends) order.now
        ≡ map (λ end. Some end) (ends_in_order tally.now.sum) }
    requires within { All (λ number. number < length tally.now.sum.ends) order.now }
    ensures { result ≡ (ended tally.now.sum == runs) }
{
    let mut left = runs;
    for number in order {
        let seen = tally.end_seen(*number);
        if seen.runs > left {
            return false;
        }
        left -= seen.runs;
    }
    left == 0
}

/// Whether the runs that were cut, or hung, or ended, are all. Fails only when out of memory.
pub(crate) fn adds_up(alloc: Global, tally: &Tally) -> Result<bool, NoMemory>
    ensures { IfOk result (λ adds. adds ≡ adds_up tally.now.sum) }
{
    let runs = tally.runs();
    let cut = runs_of(tally.cut());
    if cut > runs {
        return Ok(false);
    }
    let hung = runs_of(tally.hung());
    if hung > runs - cut {
        return Ok(false);
    }
    let order = tally.order(alloc)?;
    Ok(are_ended(tally, order.as_slice(), runs - cut - hung))
}
