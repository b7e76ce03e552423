//! Why a race has no result.

ghost use Rattle.std.specs.Prelude.{◌≡◌};

use cores::BootFault;
use shared_machine::OpenFault;
use std::alloc::AllocError;
use std::error::Error;
use std::fmt;

/// Why a race has no result, tried in this order.
#[derive(Clone, Copy, Debug, PartialEq, Eq)]
pub enum RunFault {
    /// The machine could not be booted: the limit is refused, or it was out of memory.
    Boot(BootFault),
    /// A worker could not be started. Those that were are joined.
    Spawn,
    /// Out of memory, after the machine was booted.
    NoMemory,
    /// The machine that is left is not of the image and the limit that were handed in.
    ImageDiffers,
}

impl RunFault {
    ghost use Rattle.harts.specs.Faults.{run_fault_number};

    /// The number of the refusal.
    pub fn number(self) -> u8
        ensures { result ≡ run_fault_number self }
    {
        match self {
            RunFault::Boot(_) => 1,
            RunFault::Spawn => 2,
            RunFault::NoMemory => 3,
            RunFault::ImageDiffers => 4,
        }
    }
}

impl fmt::Display for RunFault {
    ghost use Rattle.std.specs.Prelude.{Some};
    ghost use Rattle.harts.specs.Faults.{run_fault_text};

    ghost output = { λ fault. Some (run_fault_text fault) };

    fn fmt<W: fmt::Write>(&self, f: &mut fmt::Formatter<W>) -> fmt::Result {
        match *self {
            RunFault::Boot(fault) => write!(f, "{fault}"),
            RunFault::Spawn => f.write_str("cannot start a worker"),
            RunFault::NoMemory => f.write_str("memory"),
            RunFault::ImageDiffers => f.write_str("image differs"),
        }
    }
}

impl Error for RunFault {}

impl From<BootFault> for RunFault {
    ghost use Rattle.harts.specs.declared.faults.RunFault.TheVariants.{Boot};

    ghost from_gives = { λ refused fault. fault ≡ Boot refused };

    fn from(refused: BootFault) -> RunFault {
        RunFault::Boot(refused)
    }
}

impl From<OpenFault> for RunFault {
    ghost use Rattle.harts.specs.declared.faults.RunFault.TheVariants.{NoMemory};

    ghost from_gives = { λ _ fault. fault ≡ NoMemory };

    fn from(_refused: OpenFault) -> RunFault {
        RunFault::NoMemory
    }
}

impl From<AllocError> for RunFault {
    ghost use Rattle.harts.specs.declared.faults.RunFault.TheVariants.{NoMemory};

    ghost from_gives = { λ _ fault. fault ≡ NoMemory };

    fn from(_refused: AllocError) -> RunFault {
        RunFault::NoMemory
    }
}
