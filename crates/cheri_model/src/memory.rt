//! Where memory is and how large it may be. All of this is this project's own.

/// The address of RAM's first byte.
pub const RAM_BASE: u64 = 0x8000_0000;

/// The bytes of a granule, which are aligned to their number and have one tag. It is also RAM's
/// least size, and every size of RAM is a multiple of it.
pub const GRANULE_BYTES: u32 = 16;

/// RAM's greatest size in bytes.
pub const MAX_RAM_BYTES: u32 = 1_048_576;
