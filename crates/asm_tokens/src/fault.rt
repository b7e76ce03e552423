//! What is wrong with assembly, by kinds, and where.
#![tactic(auto, using(std::proofs::lemmas::Grind::common_steps))]

ghost use Rattle.std.specs.Prelude.{◌≡◌};

use crate::place::Place;
use std::alloc::{AllocError, AllocFailed};
use std::fmt;

/// What is wrong with assembly.
#[derive(Clone, Copy, Debug, PartialEq, Eq)]
pub enum AsmFaultKind {
    /// No token begins here, or one that began here can't be ended.
    Byte = 1,
    /// Neither a directive nor an instruction.
    Statement,
    /// A token can't be where it is, or one is missing.
    Operand,
    /// A number is outside its range, or a target is no instruction.
    Range,
    /// A register's name of the other kind.
    Register,
    /// No such name, or no such local label.
    Symbol,
    /// A name is defined twice.
    Twice,
    /// No number where one is needed, or an operator where it can't be.
    Expression,
    /// Known to assemblers, and not of this machine.
    Profile,
    /// Not in this kind of section.
    Section,
    /// There is no such capability.
    Capability,
    /// A request that can't be done.
    Hart,
    /// Too much: a file, code, RAM, or no instruction at all.
    Size,
    /// Out of memory, which says nothing of the assembly.
    NoMemory,
}

impl AsmFaultKind {
    ghost use Rattle.asm_tokens.specs.Faults.{fault_number, fault_name};

    /// The number by which reports of faults name the kind.
    pub fn number(self) -> u8
        ensures { result ≡ fault_number self }
    {
        self as u8
    }

    /// The kind's name.
    pub fn name(self) -> &'static str
        ensures { result.now ≡ fault_name self }
    {
        match self {
            AsmFaultKind::Byte => "Byte",
            AsmFaultKind::Statement => "Statement",
            AsmFaultKind::Operand => "Operand",
            AsmFaultKind::Range => "Range",
            AsmFaultKind::Register => "Register",
            AsmFaultKind::Symbol => "Symbol",
            AsmFaultKind::Twice => "Twice",
            AsmFaultKind::Expression => "Expression",
            AsmFaultKind::Profile => "Profile",
            AsmFaultKind::Section => "Section",
            AsmFaultKind::Capability => "Capability",
            AsmFaultKind::Hart => "Hart",
            AsmFaultKind::Size => "Size",
            AsmFaultKind::NoMemory => "NoMemory",
        }
    }
}

impl fmt::Display for AsmFaultKind {
    ghost use Rattle.std.specs.Prelude.{Some};
    ghost use Rattle.asm_tokens.specs.Faults.{fault_text};

    ghost output = { λ kind. Some (fault_text kind) };

    fn fmt<W: fmt::Write>(&self, f: &mut fmt::Formatter<W>) -> fmt::Result {
        write!(f, "{} {}", self.number(), self.name())
    }
}

/// What is wrong, and where in its file: at line 0 and column 0 where that is nowhere in a file.
#[derive(Clone, Copy, Debug, PartialEq, Eq)]
pub struct AsmFault {
    pub kind: AsmFaultKind,
    pub place: Place,
}

impl AsmFault {
    ghost use Rattle.asm_tokens.specs.Faults.{no_memory};

    /// Out of memory.
    fn no_memory() -> AsmFault
        ensures { result ≡ no_memory }
    {
        AsmFault {
            kind: AsmFaultKind::NoMemory,
            place: Place { line: 0, column: 0 },
        }
    }
}

impl From<AllocError> for AsmFault {
    ghost use Rattle.asm_tokens.specs.Faults.{no_memory};

    ghost from_gives = { λ _ fault. fault ≡ no_memory };

    fn from(_: AllocError) -> AsmFault {
        AsmFault::no_memory()
    }
}

impl<T: Drop> From<AllocFailed<T>> for AsmFault {
    ghost use Rattle.asm_tokens.specs.Faults.{no_memory};

    ghost from_gives = { λ _ fault. fault ≡ no_memory };

    fn from(_: AllocFailed<T>) -> AsmFault {
        AsmFault::no_memory()
    }
}
