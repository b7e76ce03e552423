//! The structs that cross, as C lays them out.

/// How the opening of a machine ended: a status, and of a refused listing the number of its fault
/// and the line, which is 0 where the fault is of the whole listing.
#[derive(Clone, Copy)]
#[repr(C)]
pub struct CheriOpened {
    pub status: u32,
    pub kind: u32,
    pub line: u64,
}

/// How much a machine has: harts, granules of RAM and events so far, and the most events that it
/// may have.
#[derive(Clone, Copy)]
#[repr(C)]
pub struct CheriSizes {
    pub status: u32,
    pub limit: u32,
    pub harts: u64,
    pub granules: u64,
    pub events: u64,
}

/// An event of the trace. `kind` is 1 for a step, of the hart with the number `hart` at the address
/// `pc`, which ended as `outcome` says: 0 it goes on, 1 it halted, 2 it trapped, for `cause`, which
/// speaks of the register `reg`, 32 for PCC. `kind` is 2 for a sweep from `lo` up to `hi +
/// hi_high * 2^64`, which cleared so many tags. What a kind doesn't have is 0.
#[derive(Clone, Copy)]
#[repr(C)]
pub struct CheriEvent {
    pub status: u32,
    pub cleared: u32,
    pub kind: u8,
    pub hart: u8,
    pub outcome: u8,
    pub cause: u8,
    pub reg: u8,
    pub pc: u64,
    pub lo: u64,
    pub hi: u64,
    pub hi_high: u64,
}

/// A value: a word of 128 bits as in memory, and its tag.
#[derive(Clone, Copy)]
#[repr(C)]
pub struct CheriValue {
    pub addr: u64,
    pub upper: u64,
    pub tag: bool,
    pub status: u32,
}

/// Whether a hart runs: `state` is 0 where it does, 1 where it has halted and 2 where it has
/// trapped, for `cause`, which speaks of the register `reg`, 32 for PCC.
#[derive(Clone, Copy)]
#[repr(C)]
pub struct CheriHart {
    pub status: u32,
    pub state: u8,
    pub cause: u8,
    pub reg: u8,
}

/// How the writing of a text ended: a status, and how many bytes the text has.
#[derive(Clone, Copy)]
#[repr(C)]
pub struct CheriText {
    pub status: u32,
    pub length: u64,
}
