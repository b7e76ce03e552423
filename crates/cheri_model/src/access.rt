//! The kinds of accesses to memory.

use crate::width::Width;

/// What an access to memory moves, and which way: a number of a width, or the 16 bytes of a
/// granule with its tag.
#[derive(Clone, Copy, Debug, PartialEq, Eq)]
pub enum Access {
    Load(Width),
    Store(Width),
    LoadCap,
    StoreCap,
    /// Loads a granule and stores another value there.
    Swap,
}
