//! The faults that only this program has.

ghost use Rattle.std.specs.Prelude.{◌≡◌};
ghost use Rattle.sim_program.specs.Faults.{is_refusal, number_fault, own_text, race_fault};

use cores::StepFault;
use harts::RunFault;
use inputs::InputFault;
use number_lines::NumberFault;
use program_io::ProgramFault;
use std::fmt;

/// Why the program does not end with status 0.
pub type Fault = program_io::Fault<OwnFault>;

/// A fault that only this program has.
#[derive(Clone, Copy, Debug, PartialEq, Eq)]
pub enum OwnFault {
    /// An argument is no number, or none in its range.
    BadNumber,
    /// The thread of a hart cannot be started.
    CannotStart,
    /// A race left another image than the one that it was given.
    ImageDiffers,
    /// The step at this place of the order, counted from 0, was refused.
    Step(usize, StepFault),
}

impl fmt::Display for OwnFault {
    ghost use Rattle.std.specs.Prelude.{Some};

    ghost output = { λ fault. Some (own_text fault) };

    fn fmt<W: fmt::Write>(&self, f: &mut fmt::Formatter<W>) -> fmt::Result {
        match *self {
            OwnFault::BadNumber => f.write_str("bad number"),
            OwnFault::CannotStart => f.write_str("cannot start a worker"),
            OwnFault::ImageDiffers => f.write_str("image differs"),
            OwnFault::Step(place, fault) => write!(f, "order step {place}: {fault}"),
        }
    }
}

impl ProgramFault for OwnFault {
    ghost refusal = { λ fault. is_refusal fault };

    fn is_refusal(self) -> bool {
        match self {
            OwnFault::BadNumber | OwnFault::Step(_, _) => true,
            OwnFault::CannotStart | OwnFault::ImageDiffers => false,
        }
    }
}

/// Why arguments have no line.
pub fn number_fault(refused: NumberFault) -> Fault
    ensures { result ≡ number_fault refused }
{
    match refused {
        NumberFault::NoMemory => Fault::Input(InputFault::NoMemory),
        NumberFault::BadNumber => Fault::Own(OwnFault::BadNumber),
    }
}

/// Why a race has no result.
pub fn race_fault(refused: RunFault) -> Fault
    ensures { result ≡ race_fault refused }
{
    match refused {
        RunFault::Boot(_) | RunFault::NoMemory => Fault::Input(InputFault::NoMemory),
        RunFault::Spawn => Fault::Own(OwnFault::CannotStart),
        RunFault::ImageDiffers => Fault::Own(OwnFault::ImageDiffers),
    }
}
