//! Orders that a machine takes.

ghost use Rattle.std.specs.Prelude.{◌≡◌, ℕ, true, Some, IfOk, IfSome, slice_get};
ghost use Rattle.cheri_model.specs.declared.operation.Op.TheVariants as operation;
ghost use Rattle.found_texts.specs.Find.{IsRun};
ghost use Rattle.schedules.specs.Schedules.{AreAllowed, IsAllowed};

use cheri_model::{Image, NoMemory, Op};
use cores::{Core, GREATEST_TRACE_LIMIT, run_order};
use schedules::SweepRange;
use std::alloc::{AllocError, Global};

/// Whether one of the sweeps is of this range.
fn has_range(sweeps: &[SweepRange], lo: u64, hi: u128) -> bool
    ensures { result ≡ true → (k : ℕ) × (slice_get sweeps.now k
        ≡ Some (record { lo = lo; hi = hi })) }
{
    for range in sweeps {
        if range.lo == lo && range.hi == hi {
            return true;
        }
    }
    false
}

/// Whether an operation is a step or one of the sweeps.
fn is_allowed(sweeps: &[SweepRange], op: Op) -> bool
    ensures { result ≡ true → IsAllowed sweeps.now op }
{
    match op {
        Op::Step(_) => true,
        Op::Sweep { lo, hi } => has_range(sweeps, lo, hi),
    }
}

/// Whether all operations of an order are steps or of these sweeps.
pub(crate) fn are_allowed(sweeps: &[SweepRange], order: &[Op]) -> bool
    ensures { result ≡ true → AreAllowed sweeps.now order.now }
{
    for op in order {
        if !is_allowed(sweeps, *op) {
            return false;
        }
    }
    true
}

/// The machine after an order, each operation taken in its turn. None where one of them is refused,
/// or where there are more than a trace may have. Fails only when out of memory.
pub(crate) fn ran(alloc: Global, image: &Image, order: &[Op]) -> Result<Option<Core>, NoMemory>
    ensures { IfOk result (λ core. IfSome core (λ c. IsRun image.now order.now c.state)) }
{
    if order.len() > GREATEST_TRACE_LIMIT as usize {
        return Ok(None);
    }
    let limit = order.len().max(1) as u32;
    match run_order(alloc, image.copy(alloc)?, order, limit) {
        Ok((core, None)) => Ok(Some(core)),
        Ok((_, Some(_))) => Ok(None),
        Err(_) => Err(AllocError),
    }
}
