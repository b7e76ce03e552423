//! Why a line is not added to those before it.

ghost use Rattle.std.specs.Prelude.{◌≡◌};
ghost use Rattle.sample_merges.specs.Steps.{refused_at};

use sample_slices::{LineFault, SliceError, SliceFault, SliceKind};
use std::alloc::AllocError;

/// Why a line is not added.
#[derive(Clone, Copy)]
pub(crate) enum Refused {
    /// This is wrong with it.
    As(SliceKind),
    /// Out of memory, which says nothing of the line.
    NoMemory,
}

impl From<AllocError> for Refused {
    ghost use Rattle.std.specs.Prelude.{◌≡◌};
    ghost use Rattle.sample_merges.specs.declared.refused.Refused.TheVariants.{NoMemory};

    ghost from_gives = { λ _ refused. refused ≡ NoMemory };

    fn from(_: AllocError) -> Refused {
        Refused::NoMemory
    }
}

impl From<LineFault> for Refused {
    ghost use Rattle.std.specs.Prelude.{◌≡◌};
    ghost use Rattle.sample_merges.specs.Steps.{refused_line};

    ghost from_gives = { λ fault refused. refused ≡ refused_line fault };

    fn from(fault: LineFault) -> Refused {
        match fault {
            LineFault::Form => Refused::As(SliceKind::Form),
            LineFault::NoMemory => Refused::NoMemory,
        }
    }
}

impl Refused {
    /// The error of the line with this number.
    pub(crate) fn at(self, line: usize) -> SliceError
        ensures { result ≡ refused_at line self }
    {
        match self {
            Refused::As(kind) => SliceError::Slice(SliceFault { line, kind }),
            Refused::NoMemory => SliceError::NoMemory,
        }
    }
}
