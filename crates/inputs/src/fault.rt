//! Why a program's files were refused.

ghost use Rattle.std.specs.Prelude.{◌≡◌};
ghost use Rattle.inputs.specs.Faults.{status_of};

use grammar::fault::ListingFaultKind;
use listings::ListingFault;
use orders::{OrderFault, OrderFaultKind};
use std::fmt;

/// Why a program's files were refused.
#[derive(Clone, Copy, Debug, PartialEq, Eq)]
pub enum InputFault {
    /// An allocation failed, which says nothing of a file.
    NoMemory,
    /// The listing's file cannot be read.
    CannotReadListing,
    /// The order's file cannot be read.
    CannotReadOrder,
    /// The listing was refused.
    Listing(ListingFault),
    /// The order was refused.
    Order(OrderFault),
}

impl InputFault {
    /// The exit status: 1 where a text was refused, 3 where none was read.
    pub fn status(self) -> u8
        ensures { result ≡ status_of self }
    {
        match self {
            InputFault::Listing(_) | InputFault::Order(_) => 1,
            InputFault::NoMemory | InputFault::CannotReadListing | InputFault::CannotReadOrder => 3,
        }
    }
}

impl fmt::Display for InputFault {
    ghost use Rattle.std.specs.Prelude.{Some};
    ghost use Rattle.inputs.specs.Faults.{fault_text};

    ghost output = { λ fault. Some (fault_text fault) };

    fn fmt<W: fmt::Write>(&self, f: &mut fmt::Formatter<W>) -> fmt::Result {
        match *self {
            InputFault::NoMemory => f.write_str("memory"),
            InputFault::CannotReadListing => f.write_str("cannot read listing"),
            InputFault::CannotReadOrder => f.write_str("cannot read order"),
            InputFault::Listing(ListingFault { line, kind }) => {
                write!(f, "listing line {line}: {kind}")
            }
            InputFault::Order(OrderFault { offset, kind }) => {
                write!(f, "order byte {offset}: {kind}")
            }
        }
    }
}

impl From<ListingFault> for InputFault {
    ghost use Rattle.inputs.specs.Faults.{listing_fault};

    ghost from_gives = { λ refused fault. fault ≡ listing_fault refused };

    fn from(refused: ListingFault) -> InputFault {
        match refused.kind {
            ListingFaultKind::NoMemory => InputFault::NoMemory,
            _ => InputFault::Listing(refused),
        }
    }
}

impl From<OrderFault> for InputFault {
    ghost use Rattle.inputs.specs.Faults.{order_fault};

    ghost from_gives = { λ refused fault. fault ≡ order_fault refused };

    fn from(refused: OrderFault) -> InputFault {
        match refused.kind {
            OrderFaultKind::NoMemory => InputFault::NoMemory,
            _ => InputFault::Order(refused),
        }
    }
}
