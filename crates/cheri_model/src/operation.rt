//! What a machine is asked to do, and what its trace records of it.

use crate::trace::Entry;

/// What a machine is asked to do next.
#[derive(Clone, Copy, Debug, PartialEq, Eq)]
pub enum Op {
    /// A step of the hart with this number.
    Step(u8),
    /// A sweep of the addresses from `lo` up to, not including, `hi`: every capability whose base
    /// lies there loses its tag.
    Sweep { lo: u64, hi: u128 },
}

/// One event of a trace: an operation, with what came of it.
#[derive(Clone, Copy, Debug, PartialEq, Eq)]
pub enum Event {
    /// A step of a hart.
    Step(Entry),
    /// A sweep of the addresses from `lo` up to `hi`, which cleared so many tags in registers, PCCs
    /// and granules. The count stands first, which saves an event 16 bytes.
    Sweep { cleared: u32, lo: u64, hi: u128 },
}
