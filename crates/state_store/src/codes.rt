//! A hart's status as a number.
#![tactic(auto, unfolding(crate::specs::Codes::status_of))]

ghost use Rattle.std.specs.Prelude.{◌≡◌, ◌<◌, Some, IsSome};
ghost use Rattle.state_store.specs.Codes.{code_of, status_of};

use cheri_model::{Status, Trap};

/// The number of a status.
pub fn code_of(status: Status) -> u32
    ensures value { result ≡ code_of status }
    ensures back { status_of result ≡ Some status }
{
    match status {
        Status::Running => 0,
        Status::Halted => 1,
        Status::Trapped(trap) => 2 + 256 * u32::from(trap.cause) + u32::from(trap.reg),
    }
}

/// The status of a number.
pub fn status_of(code: u32) -> Status
    requires { IsSome (status_of code) }
    ensures { status_of code ≡ Some result }
{
    if code == 0 {
        return Status::Running;
    }
    if code == 1 {
        return Status::Halted;
    }
    Status::Trapped(Trap {
        cause: ((code - 2) / 256) as u8,
        reg: ((code - 2) % 256) as u8,
    })
}
