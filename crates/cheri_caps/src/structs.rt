//! The structs that cross, as C lays them out. A number of 128 bits cannot cross: a word is two
//! halves, and a top is `top + top_high * 2^64`.

/// A word of 128 bits as in memory, and a tag.
#[derive(Clone, Copy)]
#[repr(C)]
pub struct CheriCap {
    pub addr: u64,
    pub upper: u64,
    pub tag: bool,
}

/// A word of 128 bits as in memory.
#[derive(Clone, Copy)]
#[repr(C)]
pub struct CheriWord {
    pub addr: u64,
    pub upper: u64,
}

/// The range of `len` addresses from `base` on.
#[derive(Clone, Copy)]
#[repr(C)]
pub struct CheriRange {
    pub base: u64,
    pub len: u64,
}

/// Bounds: the base, and the top, which is the first address above them.
#[derive(Clone, Copy)]
#[repr(C)]
pub struct CheriBounds {
    pub base: u64,
    pub top: u64,
    pub top_high: u64,
}

/// The fields of a word, without those of its bounds but for the exponent.
#[derive(Clone, Copy)]
#[repr(C)]
pub struct CheriFields {
    pub perms: u32,
    pub otype: u32,
    pub flag: u8,
    pub reserved: u8,
    pub ie: u8,
    pub e: u8,
}

/// The rounding of a range: its bounds, the fields that encode them, and whether they are those
/// of the range.
#[derive(Clone, Copy)]
#[repr(C)]
pub struct CheriRounded {
    pub base: u64,
    pub top: u64,
    pub top_high: u64,
    pub b: u16,
    pub t: u16,
    pub ie: u8,
    pub e: u8,
    pub exact: bool,
}

/// What instructions read off a value, and whether its tag counts.
#[derive(Clone, Copy)]
#[repr(C)]
pub struct CheriParts {
    pub base: u64,
    pub top: u64,
    pub top_high: u64,
    pub len: u64,
    pub offset: u64,
    pub otype: u64,
    pub perms: u32,
    pub flags: u8,
    pub sealed: bool,
    pub tag: bool,
}

/// A made capability and status 0, or null and why there is none.
#[derive(Clone, Copy)]
#[repr(C)]
pub struct CheriMade {
    pub cap: CheriCap,
    pub status: u8,
}

/// The first check that fails, as the number of its cause, and the register that it speaks of, 32
/// for PCC. Both are 0 where none fails.
#[derive(Clone, Copy)]
#[repr(C)]
pub struct CheriTrap {
    pub cause: u8,
    pub reg: u8,
}

/// A jump: what becomes of PCC, and what it leaves in a register; or null twice, and why it traps.
#[derive(Clone, Copy)]
#[repr(C)]
pub struct CheriJumped {
    pub pcc: CheriCap,
    pub left: CheriCap,
    pub trap: CheriTrap,
}
