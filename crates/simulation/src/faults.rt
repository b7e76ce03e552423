//! Why two texts were not run to a report.

ghost use Rattle.std.specs.Prelude.{◌≡◌};

use cores::BootFault;
use listings::ListingFault;
use orders::OrderFault;
use reports::ReportFault;
use thiserror::Error;

/// Why a simulation was not shown, tried in this order.
#[derive(Clone, Copy, Debug, PartialEq, Eq, Error)]
pub enum SimFault {
    /// The listing was refused.
    #[error(transparent)]
    Listing(ListingFault),
    /// The order was refused, after a good listing.
    #[error(transparent)]
    Order(OrderFault),
    /// The machine could not be booted.
    #[error(transparent)]
    Boot(BootFault),
    /// The report was not written whole.
    #[error(transparent)]
    Report(ReportFault),
}

impl SimFault {
    ghost use Rattle.simulation.specs.Simulation.{sim_fault_number};

    /// The number of the refusal.
    pub fn number(self) -> u8
        ensures { result ≡ sim_fault_number self }
    {
        match self {
            SimFault::Listing(_) => 1,
            SimFault::Order(_) => 2,
            SimFault::Boot(_) => 3,
            SimFault::Report(_) => 4,
        }
    }
}

impl From<ListingFault> for SimFault {
    ghost use Rattle.simulation.specs.declared.faults.SimFault.TheVariants.{Listing};

    ghost from_gives = { λ refused fault. fault ≡ Listing refused };

    fn from(refused: ListingFault) -> SimFault {
        SimFault::Listing(refused)
    }
}

impl From<OrderFault> for SimFault {
    ghost use Rattle.simulation.specs.declared.faults.SimFault.TheVariants.{Order};

    ghost from_gives = { λ refused fault. fault ≡ Order refused };

    fn from(refused: OrderFault) -> SimFault {
        SimFault::Order(refused)
    }
}

impl From<BootFault> for SimFault {
    ghost use Rattle.simulation.specs.declared.faults.SimFault.TheVariants.{Boot};

    ghost from_gives = { λ refused fault. fault ≡ Boot refused };

    fn from(refused: BootFault) -> SimFault {
        SimFault::Boot(refused)
    }
}

impl From<ReportFault> for SimFault {
    ghost use Rattle.simulation.specs.declared.faults.SimFault.TheVariants.{Report};

    ghost from_gives = { λ refused fault. fault ≡ Report refused };

    fn from(refused: ReportFault) -> SimFault {
        SimFault::Report(refused)
    }
}
