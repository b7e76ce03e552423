//! The faults that only this program has.

ghost use Rattle.std.specs.Prelude.{◌≡◌};
ghost use Rattle.explain_program.specs.Faults.{is_refusal, own_text};

use cores::StepFault;
use program_io::ProgramFault;
use std::fmt;

/// Why the program does not end with status 0.
pub type Fault = program_io::Fault<OwnFault>;

/// A fault that only this program has.
#[derive(Clone, Copy, Debug, PartialEq, Eq)]
pub enum OwnFault {
    /// A page would show too many events.
    TooLong,
    /// The step at this place of the order, counted from 0, was refused.
    Step(usize, StepFault),
    /// The map's file cannot be read.
    CannotReadMap,
    /// The map's line of this number is none of a map of this program.
    Map(usize),
}

impl fmt::Display for OwnFault {
    ghost use Rattle.std.specs.Prelude.{Some};

    ghost output = { λ fault. Some (own_text fault) };

    fn fmt<W: fmt::Write>(&self, f: &mut fmt::Formatter<W>) -> fmt::Result {
        match *self {
            OwnFault::TooLong => { f.write_str("too many events for a page: use --from and --to") }
            OwnFault::Step(place, fault) => write!(f, "order step {place}: {fault}"),
            OwnFault::CannotReadMap => f.write_str("cannot read map"),
            OwnFault::Map(line) => write!(f, "map line {line}"),
        }
    }
}

impl ProgramFault for OwnFault {
    ghost refusal = { λ fault. is_refusal fault };

    fn is_refusal(self) -> bool {
        match self {
            OwnFault::TooLong | OwnFault::Step(_, _) | OwnFault::Map(_) => true,
            OwnFault::CannotReadMap => false,
        }
    }
}
