//! Why a sweep of a run that is followed was not done.

use cores::StepFault;

/// Why a sweep was not done.
#[derive(Clone, Copy, Debug, PartialEq, Eq)]
pub enum SweepFault {
    /// The core refuses it.
    Refused(StepFault),
    /// Out of memory.
    NoMemory,
}
