//! Why a machine that threads share cannot be opened, and why no watch is given.

ghost use Rattle.std.specs.Prelude.{◌≡◌};

use std::alloc::AllocError;
use thiserror::Error;

/// Why a machine that threads share cannot be opened.
#[derive(Clone, Copy, Debug, PartialEq, Eq, Error)]
pub enum OpenFault {
    /// Out of memory.
    #[error("memory")]
    NoMemory = 1,
}

impl OpenFault {
    ghost use Rattle.shared_machine.specs.Faults.{open_fault_number};

    /// The number of the refusal.
    pub fn number(self) -> u8
        ensures { result ≡ open_fault_number self }
    {
        self as u8
    }
}

impl From<AllocError> for OpenFault {
    ghost use Rattle.shared_machine.specs.declared.faults.OpenFault.TheVariants.{NoMemory};

    ghost from_gives = { λ _ fault. fault ≡ NoMemory };

    fn from(_refused: AllocError) -> OpenFault {
        OpenFault::NoMemory
    }
}

/// Why no watch is given.
#[derive(Clone, Copy, Debug, PartialEq, Eq, Error)]
pub enum WatchFault {
    /// Each place for a watch is in use.
    #[error("no place for another watch")]
    NoPlace = 1,
    /// Out of memory.
    #[error("memory")]
    NoMemory = 2,
}

impl WatchFault {
    ghost use Rattle.shared_machine.specs.Faults.{watch_fault_number};

    /// The number of the refusal.
    pub fn number(self) -> u8
        ensures { result ≡ watch_fault_number self }
    {
        self as u8
    }
}

impl From<AllocError> for WatchFault {
    ghost use Rattle.shared_machine.specs.declared.faults.WatchFault.TheVariants.{NoMemory};

    ghost from_gives = { λ _ fault. fault ≡ NoMemory };

    fn from(_refused: AllocError) -> WatchFault {
        WatchFault::NoMemory
    }
}
