//! Why a text was not written to a sink.

ghost use Rattle.std.specs.Prelude.{◌≡◌};

use crate::sink::SinkFailed;
use std::alloc::AllocError;
use thiserror::Error;

/// Why a text was not written: the sink took a prefix of it.
#[derive(Clone, Copy, Debug, PartialEq, Eq, Error)]
pub enum WriteFault {
    /// The sink failed.
    #[error("cannot write")]
    Write = 1,
    /// Out of memory.
    #[error("memory")]
    NoMemory,
}

impl WriteFault {
    ghost use Rattle.sinks.specs.WriteFaults.{fault_number};

    /// The fault's number.
    pub fn number(self) -> u8
        ensures { result ≡ fault_number self }
    {
        self as u8
    }
}

impl From<SinkFailed> for WriteFault {
    ghost use Rattle.sinks.specs.declared.fault.WriteFault.TheVariants.{Write};

    ghost from_gives = { λ _ fault. fault ≡ Write };

    fn from(_: SinkFailed) -> WriteFault {
        WriteFault::Write
    }
}

impl From<AllocError> for WriteFault {
    ghost use Rattle.sinks.specs.declared.fault.WriteFault.TheVariants.{NoMemory};

    ghost from_gives = { λ _ fault. fault ≡ NoMemory };

    fn from(_: AllocError) -> WriteFault {
        WriteFault::NoMemory
    }
}
