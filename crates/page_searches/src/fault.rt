//! Why a question has no answer.

use condition_texts::TextFault;
use explore_properties::{PropertyFault, PropertyPlace};
use grammar::fault::ListingFaultKind;
use listings::ListingFault;
use sinks::WriteFault;
use std::alloc::AllocError;

/// Why a question about a listing has no answer. Bytes are counted from 0.
#[derive(Clone, Copy, Debug, PartialEq, Eq)]
pub enum SearchFault {
    /// An allocation failed, which says nothing of the texts.
    NoMemory,
    /// No state may be kept.
    Limit,
    /// A number by which orders are drawn is outside its limits.
    Number,
    /// The listing was refused.
    Listing(ListingFault),
    /// The word of the condition that begins at this byte cannot stand there.
    Condition(usize),
    /// The item that begins at this byte is none, or one too many.
    Item(usize),
    /// What begins at this place of the listing is no property, or one too many.
    Property(PropertyPlace),
}

impl From<AllocError> for SearchFault {
    ghost use Rattle.std.specs.Prelude.{◌≡◌};
    ghost use Rattle.page_searches.specs.declared.fault.SearchFault.TheVariants.{NoMemory};

    ghost from_gives = { λ _ fault. fault ≡ NoMemory };

    fn from(_: AllocError) -> SearchFault {
        SearchFault::NoMemory
    }
}

impl From<ListingFault> for SearchFault {
    ghost use Rattle.std.specs.Prelude.{◌≡◌};
    ghost use Rattle.page_searches.specs.Faults.{listing_fault};

    ghost from_gives = { λ refused fault. fault ≡ listing_fault refused };

    fn from(refused: ListingFault) -> SearchFault {
        match refused.kind {
            ListingFaultKind::NoMemory => SearchFault::NoMemory,
            _ => SearchFault::Listing(refused),
        }
    }
}

impl From<TextFault> for SearchFault {
    ghost use Rattle.std.specs.Prelude.{◌≡◌};
    ghost use Rattle.page_searches.specs.Faults.{text_fault};

    ghost from_gives = { λ refused fault. fault ≡ text_fault refused };

    fn from(refused: TextFault) -> SearchFault {
        match refused {
            TextFault::Condition(byte) => SearchFault::Condition(byte),
            TextFault::Place(byte) => SearchFault::Item(byte),
            TextFault::NoMemory => SearchFault::NoMemory,
        }
    }
}

impl From<PropertyFault> for SearchFault {
    ghost use Rattle.std.specs.Prelude.{◌≡◌};
    ghost use Rattle.page_searches.specs.Faults.{property_fault};

    ghost from_gives = { λ refused fault. fault ≡ property_fault refused };

    fn from(refused: PropertyFault) -> SearchFault {
        match refused {
            PropertyFault::Place(place) => SearchFault::Property(place),
            PropertyFault::NoMemory => SearchFault::NoMemory,
        }
    }
}

impl From<WriteFault> for SearchFault {
    ghost use Rattle.std.specs.Prelude.{◌≡◌};
    ghost use Rattle.page_searches.specs.declared.fault.SearchFault.TheVariants.{NoMemory};

    ghost from_gives = { λ _ fault. fault ≡ NoMemory };

    /// What is written to memory fails only where there is none.
    fn from(_: WriteFault) -> SearchFault {
        SearchFault::NoMemory
    }
}
