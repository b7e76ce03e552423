//! How an answer ends that was written whole.

use cores::StepFault;

/// How an answer ends that was written whole.
#[derive(Clone, Copy, Debug, PartialEq, Eq)]
pub enum Ended {
    /// All was done.
    Done,
    /// The step at this place of the order, counted from 0, was refused.
    Stopped(usize, StepFault),
    /// So many looks of a race's viewer showed the machine.
    Watched(u32),
}
