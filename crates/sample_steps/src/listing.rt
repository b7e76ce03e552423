//! The harts that run.

ghost use Rattle.std.specs.Prelude.{◌≡◌, ◌<◌, ◌≤◌, All, length};
ghost use Rattle.sample_draws.specs.Orders.{running_from};

use crate::hanging::runs;
use arrayvec::ArrayVec;
use cheri_model::MAX_HARTS;
use hart::Hart;

/// The numbers of harts that run, ascending.
pub type Running = ArrayVec<u8, 8>;

/// Those of these harts.
pub fn list_running(harts: &[Hart]) -> Running
    requires { length harts.now ≤ MAX_HARTS }
    ensures listed { result.items ≡ running_from 0 harts.now }
    ensures within { All (λ hart. hart < MAX_HARTS) result.items }
{
    let mut running = ArrayVec::new();
    for (number, hart) in harts.iter().enumerate() {
        if runs(hart) {
            running.push(number as u8);
        }
    }
    running
}
