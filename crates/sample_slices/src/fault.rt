//! Why slices are refused.

use std::alloc::{AllocError, AllocFailed};

/// What is wrong with a line.
#[derive(Clone, Copy, Debug, PartialEq, Eq)]
pub enum SliceKind {
    /// It is not what `sample` prints for this listing; line 0 where there is no line.
    Form,
    /// Its orders are drawn otherwise than those of line 1, or it shows other items, or only one of
    /// the two has properties.
    Other,
    /// It has a run of an earlier line.
    Twice,
}

/// A line that is refused, by its number, from 1 on.
#[derive(Clone, Copy, Debug, PartialEq, Eq)]
pub struct SliceFault {
    pub line: usize,
    pub kind: SliceKind,
}

/// Why slices are not merged.
#[derive(Clone, Copy)]
pub enum SliceError {
    /// The first line that is refused.
    Slice(SliceFault),
    /// Out of memory, which says nothing of the lines.
    NoMemory,
}

impl From<AllocError> for SliceError {
    ghost use Rattle.std.specs.Prelude.{◌≡◌};
    ghost use Rattle.sample_slices.specs.declared.fault.SliceError.TheVariants.{NoMemory};

    ghost from_gives = { λ _ fault. fault ≡ NoMemory };

    fn from(_: AllocError) -> SliceError {
        SliceError::NoMemory
    }
}

/// Why a line is not read.
#[derive(Clone, Copy)]
pub enum LineFault {
    /// It is not what `sample` prints for this listing.
    Form,
    /// Out of memory, which says nothing of the line.
    NoMemory,
}

impl From<AllocError> for LineFault {
    ghost use Rattle.std.specs.Prelude.{◌≡◌};
    ghost use Rattle.sample_slices.specs.declared.fault.LineFault.TheVariants.{NoMemory};

    ghost from_gives = { λ _ fault. fault ≡ NoMemory };

    fn from(_: AllocError) -> LineFault {
        LineFault::NoMemory
    }
}

impl<T: Drop> From<AllocFailed<T>> for LineFault {
    ghost use Rattle.std.specs.Prelude.{◌≡◌};
    ghost use Rattle.sample_slices.specs.declared.fault.LineFault.TheVariants.{NoMemory};

    ghost from_gives = { λ _ fault. fault ≡ NoMemory };

    fn from(_: AllocFailed<T>) -> LineFault {
        LineFault::NoMemory
    }
}
