//! What is wrong with a listing's properties.

ghost use Rattle.std.specs.Prelude.{◌≡◌};
ghost use Rattle.explore_properties.specs.Reading.{fault_at};

use std::alloc::AllocError;
use thiserror::Error;

/// The place of a fault: a line, counted from 1, and a byte of it, counted from 0.
#[derive(Clone, Copy, Debug, PartialEq, Eq)]
pub struct PropertyPlace {
    pub line: usize,
    pub byte: usize,
}

/// Why a listing's properties were refused.
#[derive(Clone, Copy, Debug, Error)]
pub enum PropertyFault {
    /// What begins at this place cannot stand there; byte 0 of a line with a property too many; the
    /// line's length where a word is missing; line 0 where there is no property.
    #[error("bad property at line {} byte {}", .0.line, .0.byte)]
    Place(PropertyPlace),
    /// Out of memory, which says nothing of the listing.
    #[error("memory")]
    NoMemory,
}

impl From<AllocError> for PropertyFault {
    ghost use Rattle.std.specs.Prelude.{◌≡◌};
    ghost use Rattle.explore_properties.specs.declared.fault.PropertyFault.TheVariants.{NoMemory};

    ghost from_gives = { λ _ fault. fault ≡ NoMemory };

    fn from(_: AllocError) -> PropertyFault {
        PropertyFault::NoMemory
    }
}

/// Why a line was refused: at this byte of it, or out of memory.
#[derive(Clone, Copy)]
pub(crate) enum LineFault {
    Byte(usize),
    NoMemory,
}

impl From<AllocError> for LineFault {
    ghost use Rattle.std.specs.Prelude.{◌≡◌};
    ghost use Rattle.explore_properties.specs.declared.fault.LineFault.TheVariants.{NoMemory};

    ghost from_gives = { λ _ fault. fault ≡ NoMemory };

    fn from(_: AllocError) -> LineFault {
        LineFault::NoMemory
    }
}

impl LineFault {
    /// The same, in the line of this number.
    pub fn at(self, line: usize) -> PropertyFault
        ensures { result ≡ fault_at line self }
    {
        match self {
            LineFault::Byte(byte) => PropertyFault::Place(PropertyPlace { line, byte }),
            LineFault::NoMemory => PropertyFault::NoMemory,
        }
    }
}
