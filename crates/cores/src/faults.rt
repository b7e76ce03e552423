//! Why a machine cannot be booted, and why an operation is refused.

ghost use Rattle.std.specs.Prelude.{◌≡◌};

use std::alloc::AllocError;
use std::error::Error;
use std::fmt;

/// Why a step or a sweep is refused. A refused one changes nothing.
#[derive(Clone, Copy, Debug, PartialEq, Eq)]
pub enum StepFault {
    /// No hart has this number.
    NoSuchHart = 1,
    /// The trace has as many events as its limit.
    TraceFull = 2,
    /// The hart has halted or trapped.
    HartStopped = 3,
    /// Out of memory.
    NoMemory = 4,
    /// The range of a sweep ends before it begins, or past the address space.
    BadRange = 5,
}

impl StepFault {
    ghost use Rattle.cores.specs.Faults.{step_fault_number, step_fault_name};

    /// The number of the refusal.
    pub fn number(self) -> u8
        ensures { result ≡ step_fault_number self }
    {
        self as u8
    }

    /// The name of the refusal.
    fn name(self) -> &'static str
        ensures { result.now ≡ step_fault_name self }
    {
        match self {
            StepFault::NoSuchHart => "NoSuchHart",
            StepFault::TraceFull => "TraceFull",
            StepFault::HartStopped => "HartStopped",
            StepFault::NoMemory => "NoMemory",
            StepFault::BadRange => "BadRange",
        }
    }
}

impl fmt::Display for StepFault {
    ghost use Rattle.std.specs.Prelude.{Some};
    ghost use Rattle.cores.specs.Faults.{step_fault_text};

    ghost output = { λ fault. Some (step_fault_text fault) };

    fn fmt<W: fmt::Write>(&self, f: &mut fmt::Formatter<W>) -> fmt::Result {
        write!(f, "{} {}", self.number(), self.name())
    }
}

impl Error for StepFault {}

/// Why a machine cannot be booted.
#[derive(Clone, Copy, Debug, PartialEq, Eq)]
pub enum BootFault {
    /// The limit of the trace is not from 1 to 100,000.
    Limit = 1,
    /// Out of memory.
    NoMemory = 2,
}

impl BootFault {
    ghost use Rattle.cores.specs.Faults.{boot_fault_number, boot_fault_name};

    /// The number of the refusal.
    pub fn number(self) -> u8
        ensures { result ≡ boot_fault_number self }
    {
        self as u8
    }

    /// The name of the refusal.
    fn name(self) -> &'static str
        ensures { result.now ≡ boot_fault_name self }
    {
        match self {
            BootFault::Limit => "Limit",
            BootFault::NoMemory => "NoMemory",
        }
    }
}

impl fmt::Display for BootFault {
    ghost use Rattle.std.specs.Prelude.{Some};
    ghost use Rattle.cores.specs.Faults.{boot_fault_text};

    ghost output = { λ fault. Some (boot_fault_text fault) };

    fn fmt<W: fmt::Write>(&self, f: &mut fmt::Formatter<W>) -> fmt::Result {
        write!(f, "{} {}", self.number(), self.name())
    }
}

impl Error for BootFault {}

impl From<AllocError> for BootFault {
    ghost use Rattle.cores.specs.declared.faults.BootFault.TheVariants.{NoMemory};

    ghost from_gives = { λ _ fault. fault ≡ NoMemory };

    fn from(_refused: AllocError) -> BootFault {
        BootFault::NoMemory
    }
}
