//! Why a call gives no more than it does.

ghost use Rattle.std.specs.Prelude.{◌≡◌};
ghost use Rattle.cheri_page.specs.Faults.{status_of, kind_of, place_of, column_of};

use asm_files::AssemblyFault;
use asm_tokens::AsmFaultKind;
use cores::StepFault;
use explore_properties::PropertyPlace;
use grammar::fault::ListingFaultKind;
use listings::ListingFault;
use number_lines::NumberFault;
use orders::{OrderFault, OrderFaultKind};
use page_searches::SearchFault;
use simulation::SimFault;
use std::fmt;

/// Why a call gives no more than it does.
#[derive(Clone, Copy)]
pub(crate) enum Fault {
    /// An allocation failed.
    NoMemory,
    /// An argument is no number, or none in its range.
    BadNumber,
    /// The listing was refused.
    Listing(ListingFault),
    /// The order was refused.
    Order(OrderFault),
    /// The operation at this place of the order, counted from 0, was refused.
    Step(usize, StepFault),
    /// The assembly was refused.
    Assembly(AssemblyFault),
    /// The map's line of this number is none of a map of the listing's program.
    Map(usize),
    /// The name of a file is no text.
    BadName,
    /// The word of a condition that begins at this byte cannot stand there.
    Condition(usize),
    /// The item that begins at this byte is none, or one too many.
    Item(usize),
    /// What begins at this place of the listing is no property, or one too many.
    Property(PropertyPlace),
    /// No state may be kept.
    BadLimit,
    /// A condition or a list of items is no text.
    BadText,
}

impl Fault {
    /// The status of a call that ends by it.
    pub(crate) fn status(self) -> u32
        ensures { result ≡ status_of self }
    {
        match self {
            Fault::Listing(_) => 1,
            Fault::Order(_) => 2,
            Fault::Step(_, _) => 3,
            Fault::NoMemory => 4,
            Fault::BadNumber => 6,
            Fault::Assembly(_) => 7,
            Fault::Map(_) => 8,
            Fault::BadName => 9,
            Fault::Condition(_) => 10,
            Fault::Item(_) => 11,
            Fault::Property(_) => 12,
            Fault::BadLimit => 13,
            Fault::BadText => 14,
        }
    }

    /// The number of its kind, and 0 where it has none.
    pub(crate) fn kind(self) -> u32
        ensures { result ≡ kind_of self }
    {
        match self {
            Fault::Listing(refused) => u32::from(refused.kind.number()),
            Fault::Order(refused) => u32::from(refused.kind.number()),
            Fault::Step(_, refused) => u32::from(refused.number()),
            Fault::Assembly(refused) => u32::from(refused.fault.kind.number()),
            _ => 0,
        }
    }

    /// Where it is: a line of the listing, the assembly or the map, a byte of the order, the
    /// condition or the items, or a place of an operation, and 0 where it has none.
    pub(crate) fn place(self) -> usize
        ensures { result ≡ place_of self }
    {
        match self {
            Fault::Listing(refused) => refused.line,
            Fault::Order(refused) => refused.offset,
            Fault::Step(place, _) => place,
            Fault::Assembly(refused) => refused.fault.place.line,
            Fault::Map(line) => line,
            Fault::Condition(byte) | Fault::Item(byte) => byte,
            Fault::Property(place) => place.line,
            _ => 0,
        }
    }

    /// Its column in the line of the assembly, or the byte of a property's line, and 0 where it has
    /// none.
    pub(crate) fn column(self) -> usize
        ensures { result ≡ column_of self }
    {
        match self {
            Fault::Assembly(refused) => refused.fault.place.column,
            Fault::Property(place) => place.byte,
            _ => 0,
        }
    }
}

impl fmt::Display for Fault {
    ghost use Rattle.std.specs.Prelude.{Some};
    ghost use Rattle.cheri_page.specs.Faults.{fault_text};

    ghost output = { λ fault. Some (fault_text fault) };

    fn fmt<W: fmt::Write>(&self, f: &mut fmt::Formatter<W>) -> fmt::Result {
        match *self {
            Fault::NoMemory => f.write_str("memory"),
            Fault::BadNumber => f.write_str("bad number"),
            Fault::Listing(ListingFault { line, kind }) => write!(f, "listing line {line}: {kind}"),
            Fault::Order(OrderFault { offset, kind }) => write!(f, "order byte {offset}: {kind}"),
            Fault::Step(place, refused) => write!(f, "order step {place}: {refused}"),
            Fault::Assembly(refused) => write!(f, "assembly {refused}"),
            Fault::Map(line) => write!(f, "map line {line}"),
            Fault::BadName => f.write_str("bad name"),
            Fault::Condition(byte) => write!(f, "bad condition at byte {byte}"),
            Fault::Item(byte) => write!(f, "bad place at byte {byte}"),
            Fault::Property(PropertyPlace { line, byte }) => {
                write!(f, "bad property at line {line} byte {byte}")
            }
            Fault::BadLimit => f.write_str("bad limit"),
            Fault::BadText => f.write_str("bad text"),
        }
    }
}

impl From<ListingFault> for Fault {
    ghost use Rattle.cheri_page.specs.Faults.{listing_fault};

    ghost from_gives = { λ refused fault. fault ≡ listing_fault refused };

    fn from(refused: ListingFault) -> Fault {
        match refused.kind {
            ListingFaultKind::NoMemory => Fault::NoMemory,
            _ => Fault::Listing(refused),
        }
    }
}

impl From<OrderFault> for Fault {
    ghost use Rattle.cheri_page.specs.Faults.{order_fault};

    ghost from_gives = { λ refused fault. fault ≡ order_fault refused };

    fn from(refused: OrderFault) -> Fault {
        match refused.kind {
            OrderFaultKind::NoMemory => Fault::NoMemory,
            _ => Fault::Order(refused),
        }
    }
}

impl From<SimFault> for Fault {
    ghost use Rattle.cheri_page.specs.Faults.{sim_fault};

    ghost from_gives = { λ refused fault. fault ≡ sim_fault refused };

    /// A report that is written to memory fails only where there is none.
    fn from(refused: SimFault) -> Fault {
        match refused {
            SimFault::Listing(fault) => Fault::from(fault),
            SimFault::Order(fault) => Fault::from(fault),
            SimFault::Boot(_) | SimFault::Report(_) => Fault::NoMemory,
        }
    }
}

impl From<NumberFault> for Fault {
    ghost use Rattle.cheri_page.specs.Faults.{number_fault};

    ghost from_gives = { λ refused fault. fault ≡ number_fault refused };

    fn from(refused: NumberFault) -> Fault {
        match refused {
            NumberFault::NoMemory => Fault::NoMemory,
            NumberFault::BadNumber => Fault::BadNumber,
        }
    }
}

impl From<AssemblyFault> for Fault {
    ghost use Rattle.cheri_page.specs.Faults.{assembly_fault};

    ghost from_gives = { λ refused fault. fault ≡ assembly_fault refused };

    fn from(refused: AssemblyFault) -> Fault {
        match refused.fault.kind {
            AsmFaultKind::NoMemory => Fault::NoMemory,
            _ => Fault::Assembly(refused),
        }
    }
}

impl From<SearchFault> for Fault {
    ghost use Rattle.cheri_page.specs.Faults.{search_fault};

    ghost from_gives = { λ refused fault. fault ≡ search_fault refused };

    #[tactic(auto, unfolding(crate::specs::Faults::search_fault))]
    fn from(refused: SearchFault) -> Fault {
        match refused {
            SearchFault::NoMemory => Fault::NoMemory,
            SearchFault::Limit => Fault::BadLimit,
            SearchFault::Number => Fault::BadNumber,
            SearchFault::Listing(fault) => Fault::from(fault),
            SearchFault::Condition(byte) => Fault::Condition(byte),
            SearchFault::Item(byte) => Fault::Item(byte),
            SearchFault::Property(place) => Fault::Property(place),
        }
    }
}
