//! Why a program does not do what it was asked: what all programs have, and what only one has.

ghost use Rattle.std.specs.Prelude.{◌≡◌, Bool};
ghost use Rattle.program_io.specs.Faults.{status_of, text_of};

use command_line::CommandFault;
use inputs::InputFault;
use simulation::SimFault;
use sinks::{SinkFailed, WriteFault};
use std::alloc::AllocError;
use std::fmt::{self, Display};

/// A fault that only one program has.
pub trait ProgramFault: Copy + Display {
    /// Whether what was asked for is refused.
    ghost refusal: { Self → Bool };

    /// Whether what was asked for is refused: a number, a text or a step. Else the program could
    /// not do it.
    fn is_refusal(self) -> bool
        ensures { result ≡ refusal self };
}

/// Why a program does not do what it was asked.
#[derive(Clone, Copy, Debug, PartialEq, Eq)]
pub enum Fault<Own> {
    /// The arguments are no command of the program.
    Usage,
    /// A file was refused, or an allocation failed.
    Input(InputFault),
    /// Standard output takes no more.
    CannotWrite,
    /// What only this program has.
    Own(Own),
}

impl<Own: ProgramFault> Fault<Own> {
    /// The exit status: 1 where a number, a text or a step was refused, 2 where the command line
    /// was, and 3 for all else.
    pub fn status(self) -> u8
        ensures { result ≡ status_of Own.refusal self }
    {
        match self {
            Fault::Usage => 2,
            Fault::Input(fault) => fault.status(),
            Fault::CannotWrite => 3,
            Fault::Own(own) => { if own.is_refusal() { 1 } else { 3 } }
        }
    }
}

impl<Own: Display> Display for Fault<Own> {
    ghost output = { λ fault. text_of Own.output fault };

    fn fmt<W: fmt::Write>(&self, f: &mut fmt::Formatter<W>) -> fmt::Result {
        match self {
            Fault::Usage => f.write_str("usage"),
            Fault::Input(fault) => write!(f, "{fault}"),
            Fault::CannotWrite => f.write_str("cannot write"),
            Fault::Own(own) => write!(f, "{own}"),
        }
    }
}

impl<Own> From<AllocError> for Fault<Own> {
    ghost use Rattle.program_io.specs.Faults.{no_memory};

    ghost from_gives = { λ _ fault. fault ≡ no_memory };

    fn from(_: AllocError) -> Fault<Own> {
        Fault::Input(InputFault::NoMemory)
    }
}

impl<Own> From<InputFault> for Fault<Own> {
    ghost use Rattle.program_io.specs.declared.fault.Fault.TheVariants.{Input};

    ghost from_gives = { λ refused fault. fault ≡ Input refused };

    fn from(refused: InputFault) -> Fault<Own> {
        Fault::Input(refused)
    }
}

impl<Own> From<CommandFault> for Fault<Own> {
    ghost use Rattle.program_io.specs.Faults.{command_fault};

    ghost from_gives = { λ refused fault. fault ≡ command_fault refused };

    fn from(refused: CommandFault) -> Fault<Own> {
        match refused {
            CommandFault::Usage => Fault::Usage,
            CommandFault::NoMemory => Fault::Input(InputFault::NoMemory),
        }
    }
}

impl<Own> From<SinkFailed> for Fault<Own> {
    ghost use Rattle.program_io.specs.declared.fault.Fault.TheVariants.{CannotWrite};

    ghost from_gives = { λ _ fault. fault ≡ CannotWrite };

    fn from(_: SinkFailed) -> Fault<Own> {
        Fault::CannotWrite
    }
}

impl<Own> From<WriteFault> for Fault<Own> {
    ghost use Rattle.program_io.specs.Faults.{written_fault};

    ghost from_gives = { λ refused fault. fault ≡ written_fault refused };

    fn from(refused: WriteFault) -> Fault<Own> {
        match refused {
            WriteFault::Write => Fault::CannotWrite,
            WriteFault::NoMemory => Fault::Input(InputFault::NoMemory),
        }
    }
}

impl<Own> From<SimFault> for Fault<Own> {
    ghost use Rattle.program_io.specs.Faults.{sim_fault};

    ghost from_gives = { λ refused fault. fault ≡ sim_fault refused };

    fn from(refused: SimFault) -> Fault<Own> {
        match refused {
            SimFault::Listing(fault) => Fault::Input(InputFault::from(fault)),
            SimFault::Order(fault) => Fault::Input(InputFault::from(fault)),
            SimFault::Boot(_) => Fault::Input(InputFault::NoMemory),
            SimFault::Report(fault) => Fault::from(fault),
        }
    }
}
