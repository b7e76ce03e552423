//! What is wrong with a condition or with the items of a list.

use std::alloc::AllocError;
use thiserror::Error;

/// Why a text was refused. Bytes are counted from 0.
#[derive(Clone, Copy, Debug, PartialEq, Eq, Error)]
pub enum TextFault {
    /// The word that begins at this byte cannot stand there; the text's length where a word is
    /// missing.
    #[error("bad condition at byte {0}")]
    Condition(usize),
    /// The item that begins at this byte is none, or one too many.
    #[error("bad place at byte {0}")]
    Place(usize),
    /// Out of memory, which says nothing of the text.
    #[error("memory")]
    NoMemory,
}

impl From<AllocError> for TextFault {
    ghost use Rattle.std.specs.Prelude.{◌≡◌};
    ghost use Rattle.condition_texts.specs.declared.fault.TextFault.TheVariants.{NoMemory};

    ghost from_gives = { λ _ fault. fault ≡ NoMemory };

    fn from(_: AllocError) -> TextFault {
        TextFault::NoMemory
    }
}
