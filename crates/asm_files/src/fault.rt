//! What is wrong with files of assembly, and where.

ghost use Rattle.std.specs.Prelude.{◌≡◌};
ghost use Rattle.asm_files.specs.Faults.{in_file};

use asm_tokens::AsmFault;
use std::alloc::{AllocError, AllocFailed};
use std::fmt;

/// What is wrong with a file, by its number from 1 on: 0 where it is the command line or the whole.
#[derive(Clone, Copy, Debug, PartialEq, Eq)]
pub struct AssemblyFault {
    pub file: u32,
    pub fault: AsmFault,
}

/// A fault of the file of a number, from 0 on.
pub fn in_file(number: u32, fault: AsmFault) -> AssemblyFault
    ensures { result ≡ in_file number fault }
{
    AssemblyFault {
        file: number.wrapping_add(1),
        fault,
    }
}

impl From<AllocError> for AssemblyFault {
    ghost use Rattle.asm_files.specs.Faults.{IsNoMemory};

    ghost from_gives = { λ _ fault. IsNoMemory fault };

    fn from(error: AllocError) -> AssemblyFault {
        AssemblyFault {
            file: 0,
            fault: AsmFault::from(error),
        }
    }
}

impl<T: Drop> From<AllocFailed<T>> for AssemblyFault {
    ghost use Rattle.asm_files.specs.Faults.{IsNoMemory};

    ghost from_gives = { λ _ fault. IsNoMemory fault };

    fn from(_: AllocFailed<T>) -> AssemblyFault {
        AssemblyFault::from(AllocError)
    }
}

impl fmt::Display for AssemblyFault {
    ghost use Rattle.std.specs.Prelude.{Some};
    ghost use Rattle.asm_files.specs.Faults.{fault_line};

    ghost output = { λ fault. Some (fault_line fault) };

    fn fmt<W: fmt::Write>(&self, f: &mut fmt::Formatter<W>) -> fmt::Result {
        let place = self.fault.place;
        write!(
            f,
            "{}:{}:{}: {}",
            self.file, place.line, place.column, self.fault.kind,
        )
    }
}
