//! Why a map was refused.

ghost use Rattle.std.specs.Prelude.{◌≡◌};

use std::alloc::AllocError;

/// Why a map was refused.
#[derive(Clone, Copy, Debug, PartialEq, Eq)]
pub enum MapFault {
    /// An allocation failed, which says nothing of the map.
    NoMemory,
    /// The line of this number, from 1 on, is none of a map, or none of this program's.
    Line(usize),
}

impl From<AllocError> for MapFault {
    ghost use Rattle.asm_map_reader.specs.declared.fault.MapFault.TheVariants.{NoMemory};

    ghost from_gives = { λ _ fault. fault ≡ NoMemory };

    fn from(_: AllocError) -> MapFault {
        MapFault::NoMemory
    }
}

/// Why a line of a map was refused.
#[derive(Clone, Copy)]
pub(crate) enum LineFault {
    /// An allocation failed.
    NoMemory,
    /// The line is none of a map, or none of this program's.
    Wrong,
}

impl LineFault {
    ghost use Rattle.asm_map_reader.specs.Reading.{fault_at};

    /// The fault of the map, whose line of this number has the fault.
    pub fn at(self, number: usize) -> MapFault
        ensures { result ≡ fault_at number self }
    {
        match self {
            LineFault::NoMemory => MapFault::NoMemory,
            LineFault::Wrong => MapFault::Line(number),
        }
    }
}
