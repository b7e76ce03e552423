//! Why a memory could not be made.

ghost use Rattle.std.specs.Prelude.{◌≡◌};
ghost use Rattle.tagged_mem.specs.MemoryFaults.{memory_fault_number};

use std::alloc::AllocError;

/// Why a memory could not be made.
#[derive(Clone, Copy, Debug, PartialEq, Eq)]
pub enum MemFault {
    /// The size is not a multiple of 16 from 16 to 1,048,576.
    Size = 1,
    /// Out of memory.
    NoMemory = 2,
}

impl MemFault {
    /// The refusal's number, 1 or 2.
    pub fn number(self) -> u8
        ensures { result ≡ memory_fault_number self }
    {
        self as u8
    }
}

impl From<AllocError> for MemFault {
    ghost use Rattle.std.specs.Prelude.{◌≡◌};
    ghost use Rattle.tagged_mem.specs.declared.fault.MemFault.TheVariants.{NoMemory};

    ghost from_gives = { λ _ fault. fault ≡ NoMemory };

    fn from(_refused: AllocError) -> MemFault {
        MemFault::NoMemory
    }
}
