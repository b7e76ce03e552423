//! What a step leaves behind: its outcome, the trap if there was one, and its entry in the trace.

/// Why a hart trapped: the number of the cause, and the register that it speaks of. The causes'
/// numbers are this project's own.
#[derive(Clone, Copy, Debug, PartialEq, Eq)]
pub struct Trap {
    pub cause: u8,
    pub reg: u8,
}

impl Trap {
    /// The capability is untagged.
    pub const TAG: u8 = 1;
    /// The capability is sealed, or has no type that can be invoked.
    pub const SEAL: u8 = 2;
    /// The permission Execute is missing, or is there where it may not be.
    pub const EXECUTE: u8 = 3;
    /// The permission Load is missing.
    pub const LOAD: u8 = 4;
    /// The permission Store is missing.
    pub const STORE: u8 = 5;
    /// The permission Store_Capability is missing.
    pub const STORE_CAP: u8 = 6;
    /// The permission Store_Local_Capability is missing.
    pub const STORE_LOCAL: u8 = 7;
    /// The bytes are not in the capability's bounds.
    pub const LENGTH: u8 = 8;
    /// The address is not a multiple of the access's size.
    pub const ALIGNMENT: u8 = 9;
    /// The bytes are not wholly in RAM.
    pub const PLACE: u8 = 10;
    /// PCC's address is not the place of an instruction.
    pub const FETCH: u8 = 11;
    /// The object types of a pair differ.
    pub const TYPE: u8 = 12;
    /// The permission CInvoke is missing.
    pub const CINVOKE: u8 = 13;
    /// The register number that means PCC.
    pub const PCC: u8 = 32;
}

/// How one step of a hart ended.
#[derive(Clone, Copy, Debug, PartialEq, Eq)]
pub enum Outcome {
    Done,
    Halt,
    Trap(Trap),
}

/// Whether a hart may still step, and if not, why it stopped. A stopped hart never runs again.
#[derive(Clone, Copy, Debug, PartialEq, Eq)]
pub enum Status {
    Running,
    Halted,
    Trapped(Trap),
}

/// One entry of the trace: which hart stepped, the address of its PCC before the step, and how the
/// step ended.
#[derive(Clone, Copy, Debug, PartialEq, Eq)]
pub struct Entry {
    pub pc: u64,
    pub hart: u8,
    pub outcome: Outcome,
}
