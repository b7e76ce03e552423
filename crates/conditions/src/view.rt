//! States of a machine that are looked at without being copied.

ghost use Rattle.std.specs.Prelude.{◌≡◌, ◌<◌, length};
ghost use Rattle.cheri_model.specs.steps.Hart.{register};
ghost use Rattle.cheri_model.specs.steps.Memory.{granule_at};
ghost use Rattle.cheri_model.specs.runs.Machine.{MachineState, hart_at};

use cap_ops::Cap;
use cheri_model::{Reg, Status};

/// A state of a machine: its harts and its granules, by their numbers from 0 on.
pub trait StateView {
    /// The state.
    ghost state: { Self → MachineState };

    /// The number of harts.
    fn hart_count(&self) -> usize
        ensures { result ≡ length (state self.now).harts };

    /// The number of granules.
    fn granule_count(&self) -> usize
        ensures { result ≡ length (state self.now).memory };

    /// A register of a hart.
    fn register(&self, hart: usize, reg: Reg) -> Cap
        requires { hart < length (state self.now).harts }
        ensures { result ≡ register (hart_at (state self.now) hart) reg };

    /// PCC of a hart.
    fn pcc(&self, hart: usize) -> Cap
        requires { hart < length (state self.now).harts }
        ensures { result ≡ (hart_at (state self.now) hart).pcc };

    /// Whether a hart runs.
    fn status(&self, hart: usize) -> Status
        requires { hart < length (state self.now).harts }
        ensures { result ≡ (hart_at (state self.now) hart).status };

    /// The value of a granule.
    fn granule(&self, number: usize) -> Cap
        requires { number < length (state self.now).memory }
        ensures { result ≡ granule_at (state self.now).memory number };
}
