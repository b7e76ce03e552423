//! Why a machine is not opened.

ghost use Rattle.std.specs.Prelude.{◌≡◌};

use cores::BootFault;
use grammar::fault::ListingFaultKind;
use listings::ListingFault;

/// Why a machine is not opened.
#[derive(Clone, Copy, Debug, PartialEq, Eq)]
pub(crate) enum OpenFault {
    /// The listing is refused.
    Listing(ListingFault),
    /// The limit of the trace is not from 1 to 100,000.
    Limit,
    /// Out of memory.
    NoMemory,
}

impl From<ListingFault> for OpenFault {
    ghost use Rattle.cheri_machine.specs.Openings.{listing_fault};

    ghost from_gives = { λ refused fault. fault ≡ listing_fault refused };

    fn from(refused: ListingFault) -> OpenFault {
        match refused.kind {
            ListingFaultKind::NoMemory => OpenFault::NoMemory,
            _ => OpenFault::Listing(refused),
        }
    }
}

impl From<BootFault> for OpenFault {
    ghost use Rattle.cheri_machine.specs.Openings.{boot_fault};

    ghost from_gives = { λ refused fault. fault ≡ boot_fault refused };

    fn from(refused: BootFault) -> OpenFault {
        match refused {
            BootFault::Limit => OpenFault::Limit,
            BootFault::NoMemory => OpenFault::NoMemory,
        }
    }
}
