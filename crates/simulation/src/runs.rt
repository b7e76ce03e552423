//! The run of two texts, a listing and an order.

ghost use Rattle.std.specs.Prelude.{◌≡◌, IfOk, IfErr, Ok};
ghost use Rattle.cores.specs.Runs.{IsConfinedRun};
ghost use Rattle.simulation.specs.Simulation.{IsUnrun, run_of_texts};

use crate::faults::SimFault;
use cores::{Core, StepFault, run_judged};
use listings::read_listing;
use orders::judge_order;
use std::alloc::Global;

/// Runs the machine of a listing in an order, with a trace of at most `limit` events. Answers the
/// core that is left, and the operation that was refused, if one was, with its place in the order
/// counted from 0. The listing is judged first, then the order, then the limit, which is from 1 to
/// 100,000; after that it fails only when out of memory.
pub fn run_texts(
    alloc: Global,
    listing: &[u8],
    order: &[u8],
    limit: u32,
) -> Result<(Core, Option<(usize, StepFault)>), SimFault>
    ensures run { IfOk result (λ run. run_of_texts listing.now order.now limit ≡ Ok run) }
    ensures confined { IfOk result IsConfinedRun }
    ensures refused { IfErr result (IsUnrun (run_of_texts listing.now order.now limit)) }
{
    let image = read_listing(alloc, listing)?;
    let ops = judge_order(order)?;
    Ok(run_judged(alloc, image, ops, limit)?)
}
