//! Steps of one hart, each computed once for a state of the hart and a value of the granule that it
//! may touch.

ghost use Rattle.std.specs.Prelude.{◌≡◌, ◌+◌, ◌*◌, ◌<◌, ◌≤◌};
ghost use Rattle.states.specs.Locals.{touched, site_of};

use crate::accesses::accessed_address;
use cheri_model::{GRANULE_BYTES, Instr, RAM_BASE, Status};
use hart::Hart;

/// The site of a hart that does not run.
pub const STOPPED: u32 = u32::MAX;

/// What a step leaves: the number of the hart, and that of the value in the granule that it may
/// touch.
#[derive(Clone, Copy)]
pub struct LocalStep {
    pub hart: u32,
    pub value: u32,
}

/// The granule that the next step of a hart may touch, in a memory of so many.
#[tactic(auto, unfolding(crate::specs::Locals::touched))]
fn touched(program: &[Instr], granules: usize, hart: &Hart) -> usize
    ensures value { result ≡ touched program.now granules hart.now }
    ensures within { 0 < granules → result < granules }
{
    let addr = accessed_address(program, hart);
    if addr < RAM_BASE {
        return 0;
    }
    let number = (addr - RAM_BASE) / u64::from(GRANULE_BYTES);
    if number < granules as u64 {
        number as usize
    } else {
        0
    }
}

/// The granule that the next step of a hart may touch, or `STOPPED`.
pub fn site_of(program: &[Instr], granules: usize, hart: &Hart) -> u32
    requires some { 0 < granules }
    requires few { granules ≤ 65536 }
    ensures { result ≡ site_of program.now granules hart.now }
{
    match hart.status() {
        Status::Running => touched(program, granules, hart) as u32,
        Status::Halted | Status::Trapped(_) => STOPPED,
    }
}

/// The address of a granule.
pub fn granule_address(number: u32) -> u64
    ensures { result ≡ 2147483648 + 16 * number }
{
    RAM_BASE + u64::from(GRANULE_BYTES) * u64::from(number)
}
