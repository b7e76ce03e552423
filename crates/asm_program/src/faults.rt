//! The faults that only this program has.

ghost use Rattle.std.specs.Prelude.{◌≡◌};
ghost use Rattle.asm_program.specs.Faults.{assembly_fault, is_refusal, own_text};

use asm_files::AssemblyFault;
use asm_tokens::AsmFaultKind;
use inputs::InputFault;
use program_io::ProgramFault;
use std::fmt;

/// Why the program does not end with status 0.
pub type Fault = program_io::Fault<OwnFault>;

/// A fault that only this program has.
#[derive(Clone, Copy, Debug, PartialEq, Eq)]
pub enum OwnFault {
    /// A file of assembly cannot be read.
    CannotReadAssembly,
    /// The assembly was refused.
    Assembly(AssemblyFault),
}

impl fmt::Display for OwnFault {
    ghost use Rattle.std.specs.Prelude.{Some};

    ghost output = { λ fault. Some (own_text fault) };

    fn fmt<W: fmt::Write>(&self, f: &mut fmt::Formatter<W>) -> fmt::Result {
        match *self {
            OwnFault::CannotReadAssembly => f.write_str("cannot read assembly"),
            OwnFault::Assembly(fault) => write!(f, "assembly {fault}"),
        }
    }
}

impl ProgramFault for OwnFault {
    ghost refusal = { λ fault. is_refusal fault };

    fn is_refusal(self) -> bool {
        match self {
            OwnFault::CannotReadAssembly => false,
            OwnFault::Assembly(_) => true,
        }
    }
}

/// A fault of assembly as one of the program: out of memory has no place.
pub(crate) fn assembly_fault(fault: AssemblyFault) -> Fault
    ensures { result ≡ assembly_fault fault }
{
    match fault.fault.kind {
        AsmFaultKind::NoMemory => Fault::Input(InputFault::NoMemory),
        _ => Fault::Own(OwnFault::Assembly(fault)),
    }
}
