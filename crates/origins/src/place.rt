//! The places of a machine's values, and where a step takes them.

ghost use Rattle.std.specs.Prelude.{◌≡◌};
ghost use Rattle.origins.specs.Places.{place_of};

/// A place as one hart names it.
#[derive(Clone, Copy, Debug, PartialEq, Eq)]
pub enum Spot {
    /// Its PCC.
    Pcc,
    /// Its register with this number.
    Register(u8),
    /// The granule of memory with this number.
    Granule(u32),
}

/// A place of the machine.
#[derive(Clone, Copy, Debug, PartialEq, Eq)]
pub enum Place {
    /// The PCC of the hart with this number.
    PccOf(u8),
    /// A register of a hart.
    RegisterOf { hart: u8, number: u8 },
    /// The granule of memory with this number.
    GranuleOf(u32),
}

/// That a step sets one place to what comes from another.
#[derive(Clone, Copy, Debug, PartialEq, Eq)]
pub struct Flow {
    /// What is set.
    pub set: Spot,
    /// Where its value comes from, as it was before the step.
    pub source: Spot,
}

impl Spot {
    /// The place that the hart with this number names so.
    pub fn of(self, hart: u8) -> Place
        ensures { result ≡ place_of hart self }
    {
        match self {
            Spot::Pcc => Place::PccOf(hart),
            Spot::Register(number) => Place::RegisterOf { hart, number },
            Spot::Granule(number) => Place::GranuleOf(number),
        }
    }
}
