//! Why a chunk can't have what is put into it.

use std::alloc::{AllocError, AllocFailed};

/// Why a chunk can't have what is put into it.
#[derive(Clone, Copy, Debug, PartialEq, Eq)]
pub enum ChunkFault {
    /// The section has another kind in this file.
    Section,
    /// The chunk has too many bytes, or too many instructions.
    Size,
    /// Out of memory.
    NoMemory,
}

impl From<AllocError> for ChunkFault {
    ghost use Rattle.std.specs.Prelude.{◌≡◌};
    ghost use Rattle.asm_chunks.specs.declared.fault.ChunkFault.TheVariants.{NoMemory};

    ghost from_gives = { λ _ fault. fault ≡ NoMemory };

    fn from(_: AllocError) -> ChunkFault {
        ChunkFault::NoMemory
    }
}

impl<T: Drop> From<AllocFailed<T>> for ChunkFault {
    ghost use Rattle.std.specs.Prelude.{◌≡◌};
    ghost use Rattle.asm_chunks.specs.declared.fault.ChunkFault.TheVariants.{NoMemory};

    ghost from_gives = { λ _ fault. fault ≡ NoMemory };

    fn from(_: AllocFailed<T>) -> ChunkFault {
        ChunkFault::NoMemory
    }
}
