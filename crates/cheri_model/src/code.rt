//! Where the program is: apart from memory, so that no load or store reaches it. All of this is
//! this project's own.

/// The address of instruction 0.
pub const CODE_BASE: u64 = 0x1000_0000;

/// The bytes of an instruction, so that instruction i is 4 * i bytes above instruction 0.
pub const INSTRUCTION_BYTES: u64 = 4;
