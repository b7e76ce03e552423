//! What is said of one step: plain data.

use crate::why::{TrapWhy, Why};
use cap_ops::Cap;
use cheri_model::{Entry, Instr, Trap};
use origins::{Place, Spot};

/// A value, the place of the stepped hart that has it, and where it is tagged its origin: the place
/// of the opening state whose capability it came from.
#[derive(Clone, Copy, PartialEq, Eq)]
pub struct NamedValue {
    pub name: Spot,
    pub value: Cap,
    pub origin: Option<Place>,
}

/// None, one or two, in this order.
#[derive(Clone, Copy, PartialEq, Eq)]
pub enum UpToTwo<T> {
    Zero,
    One(T),
    Two(T, T),
}

/// The bytes that an access moves: their first address, and how many they are.
#[derive(Clone, Copy, PartialEq, Eq)]
pub struct Extent {
    pub address: u64,
    pub bytes: u64,
}

/// An instruction whose fetch passed, and its number in the program.
#[derive(Clone, Copy, PartialEq, Eq)]
pub struct Fetched {
    pub number: usize,
    pub instr: Instr,
}

/// A trap, and why.
#[derive(Clone, Copy, PartialEq, Eq)]
pub struct Trapped {
    pub trap: Trap,
    pub why: TrapWhy,
}

/// A register or a granule that lost its tag, and why.
#[derive(Clone, Copy, PartialEq, Eq)]
pub struct Cleared {
    pub name: Spot,
    pub why: Why,
}

/// What is said of one step. A step that trapped has at most `reads` and `at` beside its trap, and
/// one whose fetch trapped has neither.
#[derive(Clone, Copy)]
pub struct StepFacts {
    /// The step's entry in the trace.
    pub entry: Entry,
    /// The instruction, where its fetch passed.
    pub fetched: Option<Fetched>,
    /// What the instruction reads, before the step: PCC for AUIPCC, CJAL and CJALR, then each
    /// source register once, in the order of the operands.
    pub reads: UpToTwo<NamedValue>,
    /// The bytes of its access of memory, done or not.
    pub at: Option<Extent>,
    /// The granule that an access which was done lies in, before the step.
    pub finds: Option<NamedValue>,
    /// The trap, if there was one, and why.
    pub traps: Option<Trapped>,
    /// The granule after a store which was done.
    pub leaves: Option<NamedValue>,
    /// What was set, after the step: the result's register, unless it is c0; then PCC after a
    /// jump.
    pub sets: UpToTwo<NamedValue>,
    /// What lost its tag: the result, whose source had one, or the granule of a data store. A
    /// result of CBuildCap is here wherever it has no tag.
    pub clears: Option<Cleared>,
}
