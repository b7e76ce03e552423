//! The numbers by which C names the capability instructions.

/// CMove.
pub const MOVE: u8 = 1;
/// CClearTag.
pub const CLEAR_TAG: u8 = 2;
/// CSetAddr.
pub const SET_ADDRESS: u8 = 3;
/// CIncOffset.
pub const INC_OFFSET: u8 = 4;
/// CSetBounds.
pub const SET_BOUNDS: u8 = 5;
/// CSetBoundsExact.
pub const SET_BOUNDS_EXACT: u8 = 6;
/// CAndPerm.
pub const AND_PERMS: u8 = 7;
/// CSetFlags.
pub const SET_FLAGS: u8 = 8;
/// CSetHigh.
pub const SET_HIGH: u8 = 9;
/// CSeal.
pub const SEAL: u8 = 10;
/// CUnseal.
pub const UNSEAL: u8 = 11;
/// CSealEntry.
pub const SEAL_ENTRY: u8 = 12;
/// CBuildCap.
pub const BUILD: u8 = 13;
/// The unsealing that a jump does, which is no instruction by itself.
pub const UNSEALED_BY_JUMP: u8 = 14;

/// What is answered of a number that no instruction has.
pub const NO_OPERATION: u8 = 255;
