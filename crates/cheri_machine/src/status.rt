//! The numbers of what an answer says.

/// It is done.
pub const DONE: u32 = 0;
/// The listing is refused, for its fault of the number `kind`.
pub const LISTING: u32 = 1;
/// The limit of the trace is not from 1 to 100,000.
pub const LIMIT: u32 = 2;
/// Out of memory.
pub const NO_MEMORY: u32 = 3;
/// The handle is closed.
pub const CLOSED: u32 = 4;
/// No hart has this number.
pub const NO_SUCH_HART: u32 = 5;
/// The trace has as many events as its limit.
pub const TRACE_FULL: u32 = 6;
/// The hart has halted or trapped.
pub const HART_STOPPED: u32 = 7;
/// The range of a sweep ends before it begins, or past the address space.
pub const BAD_RANGE: u32 = 8;
/// No register has this number.
pub const NO_SUCH_REGISTER: u32 = 9;
/// No granule of RAM has this number.
pub const NO_SUCH_GRANULE: u32 = 10;
/// The trace has no event of this number.
pub const NO_SUCH_EVENT: u32 = 11;
/// The text is longer than the room for it.
pub const NO_ROOM: u32 = 12;
