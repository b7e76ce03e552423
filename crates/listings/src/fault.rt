//! Why a listing was refused, and where.

ghost use Rattle.std.specs.Prelude.{◌≡◌};

use grammar::fault::ListingFaultKind;
use std::alloc::{AllocError, AllocFailed};
use thiserror::Error;

/// Why a listing was refused, and the faulty line, counted from 1: 0 where no single line is at
/// fault.
#[derive(Clone, Copy, Debug, PartialEq, Eq, Error)]
#[error("listing line {line}: {kind}")]
pub struct ListingFault {
    pub line: usize,
    pub kind: ListingFaultKind,
}

impl From<AllocError> for ListingFault {
    ghost use Rattle.listings.specs.Faults.{no_memory};

    ghost from_gives = { λ _ fault. fault ≡ no_memory };

    fn from(_: AllocError) -> ListingFault {
        ListingFault {
            line: 0,
            kind: ListingFaultKind::NoMemory,
        }
    }
}

/// Why a line was not read: out of memory, or what is wrong with it.
#[derive(Clone, Copy, Debug, PartialEq, Eq)]
pub enum LineFault {
    NoMemory,
    Kind(ListingFaultKind),
}

impl LineFault {
    ghost use Rattle.listings.specs.Faults.{fault_at};

    /// The same as a fault of the listing.
    pub fn at(self, line: usize) -> ListingFault
        ensures { result ≡ fault_at line self }
    {
        match self {
            LineFault::NoMemory => ListingFault {
                line: 0,
                kind: ListingFaultKind::NoMemory,
            },
            LineFault::Kind(kind) => ListingFault { line, kind },
        }
    }
}

impl From<AllocError> for LineFault {
    ghost use Rattle.listings.specs.declared.fault.LineFault.TheVariants.{NoMemory};

    ghost from_gives = { λ _ fault. fault ≡ NoMemory };

    fn from(_: AllocError) -> LineFault {
        LineFault::NoMemory
    }
}

impl<T: Drop> From<AllocFailed<T>> for LineFault {
    ghost use Rattle.listings.specs.declared.fault.LineFault.TheVariants.{NoMemory};

    ghost from_gives = { λ _ fault. fault ≡ NoMemory };

    fn from(_: AllocFailed<T>) -> LineFault {
        LineFault::NoMemory
    }
}

impl From<ListingFaultKind> for LineFault {
    ghost use Rattle.listings.specs.declared.fault.LineFault.TheVariants.{Kind};

    ghost from_gives = { λ kind fault. fault ≡ Kind kind };

    fn from(kind: ListingFaultKind) -> LineFault {
        LineFault::Kind(kind)
    }
}
