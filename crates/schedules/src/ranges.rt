//! The sweeps that an order may have.

/// A range of addresses that may be swept: those from `lo` up to, not including, `hi`.
#[derive(Clone, Copy, Debug, PartialEq, Eq)]
pub struct SweepRange {
    pub lo: u64,
    pub hi: u128,
}
