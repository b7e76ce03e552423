//! What is kept of states that differ in little, and what is left out.

ghost use Rattle.std.specs.Prelude.{◌≡◌};
ghost use Rattle.reductions.specs.Reductions.{left_out_of, reduces};

use hart_groups::any_grouped;
use hart_order::HartGroups;
use live_registers::LiveRegisters;

/// What a search is told to keep, whether it matters to the question or not.
#[derive(Clone, Copy)]
pub struct Keeps {
    /// All registers.
    pub registers: bool,
    /// Which hart stands where.
    pub harts: bool,
}

/// What an answer says was left out.
#[derive(Clone, Copy)]
pub struct LeftOut {
    /// Some register, in some place of the program.
    pub registers: bool,
    /// Which hart of a group stands where.
    pub groups: HartGroups,
}

/// What makes no difference to a question: the registers other than these, and which hart of a
/// group stands where.
#[derive(Drop)]
pub struct Reduction {
    pub live: LiveRegisters,
    pub groups: HartGroups,
}

impl Reduction {
    /// Whether anything is left out.
    pub(crate) fn reduces(&self) -> bool
        ensures { result ≡ reduces self.now.live self.now.groups }
    {
        self.live.forgets_any() || any_grouped(&self.groups)
    }

    /// What an answer says of it.
    pub fn left_out(&self) -> LeftOut
        ensures { result ≡ left_out_of self.now.live self.now.groups }
    {
        LeftOut {
            registers: self.live.forgets_any(),
            groups: self.groups,
        }
    }
}
