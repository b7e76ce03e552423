//! The run of an order on one thread.

ghost use Rattle.std.specs.Prelude.{◌≡◌, ◌↔◌, false, IfOk, Err};
ghost use Rattle.cheri_model.specs.runs.Authority.{IsConfined};
ghost use Rattle.cores.specs.Cores.{IsCore, is_limit};
ghost use Rattle.cores.specs.Runs.{run_of};

use crate::cores::Core;
use crate::faults::{BootFault, StepFault};
use cheri_model::{Image, Op};
use orders::JudgedOrder;
use std::alloc::Global;

/// Boots the image and takes the operations of this order, until one is refused: then it answers
/// the place of that operation, counted from 0, and the refusal. So it takes the longest prefix
/// of the order that is legal and no longer than the limit of the trace. Fails with `Limit` exactly
/// where the limit is not from 1 to 100,000, and otherwise only when out of memory.
pub fn run_order(
    alloc: Global,
    image: Image,
    order: &[Op],
    limit: u32,
) -> Result<(Core, Option<(usize, StepFault)>), BootFault>
    ensures limit { (result ≡ Err BootFault.Limit) ↔ (is_limit limit ≡ false) }
    ensures run { IfOk result (λ run. run ≡ run_of image order.now limit) }
    ensures core { IfOk result (λ run. IsCore run.0) }
    ensures confined { IfOk result (λ run. IsConfined run.0.image run.0.state) }
{
    let mut core = Core::boot(alloc, image, limit)?;
    for (place, op) in order.iter().enumerate() {
        if let Err(fault) = core.apply(*op) {
            return Ok((core, Some((place, fault))));
        }
    }
    Ok((core, None))
}

/// As [`run_order`], where the operations of the order are read one by one while they run, so that
/// the order takes no memory.
pub fn run_judged(
    alloc: Global,
    image: Image,
    mut order: JudgedOrder<'_>,
    limit: u32,
) -> Result<(Core, Option<(usize, StepFault)>), BootFault>
    ensures limit { (result ≡ Err BootFault.Limit) ↔ (is_limit limit ≡ false) }
    ensures run { IfOk result (λ run. run ≡ run_of image order.entry limit) }
    ensures core { IfOk result (λ run. IsCore run.0) }
    ensures confined { IfOk result (λ run. IsConfined run.0.image run.0.state) }
{
    let mut core = Core::boot(alloc, image, limit)?;
    let mut place = 0;
    while let Some(op) = order.next() {
        if let Err(fault) = core.apply(op) {
            return Ok((core, Some((place, fault))));
        }
        place += 1;
    }
    Ok((core, None))
}
