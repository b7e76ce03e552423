//! Sweeps, which orders of version 2 may have.

ghost use Rattle.std.specs.Prelude.{◌≡◌, ◌^◌, ◌<◌, ◌≤◌, IfOk, length, min};
ghost use Rattle.orders.specs.Sweeps.{sweep_of, sweep_at};

use crate::fault::{OrderFault, OrderFaultKind};
use crate::numbers::{number_at, number_end};
use cheri_model::{ADDRESS_SPACE, Op};

/// The sweep of a range. Fails with `Range` at its `[` where there is none.
fn sweep_of(place: usize, lo: u128, hi: u128) -> Result<Op, OrderFault>
    ensures { result ≡ sweep_of place lo hi }
{
    if lo <= hi && hi <= ADDRESS_SPACE && lo < ADDRESS_SPACE {
        Ok(Op::Sweep { lo: lo as u64, hi })
    } else {
        Err(OrderFault {
            offset: place,
            kind: OrderFaultKind::Range,
        })
    }
}

/// The sweep whose `[` is at a place, and the place after its `]`.
pub fn sweep_at(text: &[u8], place: usize) -> Result<(Op, usize), OrderFault>
    requires { place < length text.now }
    ensures sweep { result ≡ sweep_at text.now place }
    ensures next { IfOk result (λ sweep. (place < sweep.1) × (sweep.1 ≤ length text.now)) }
{
    let comma = number_end(b',', text, place + 1)?;
    let bracket = number_end(b']', text, comma + 1)?;
    let lo = number_at(text, place + 1);
    let hi = number_at(text, comma + 1);
    let sweep = sweep_of(place, lo, hi)?;
    Ok((sweep, bracket + 1))
}
