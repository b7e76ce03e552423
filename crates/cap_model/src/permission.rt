//! Permission numbers: permission n is bit n of what CGetPerm shows (CHERI ISA v9, "capability
//! permissions"). The numbers are this project's own.

/// May be stored through any authority to store capabilities.
pub const GLOBAL: u32 = 0;

/// Instructions may be fetched.
pub const EXECUTE: u32 = 1;

/// Data may be loaded.
pub const LOAD: u32 = 2;

/// Data may be stored.
pub const STORE: u32 = 3;

/// Loads keep tags.
pub const LOAD_CAP: u32 = 4;

/// Tagged values may be stored.
pub const STORE_CAP: u32 = 5;

/// Tagged values without Global may be stored.
pub const STORE_LOCAL: u32 = 6;

/// Addresses in the bounds are object types that may be sealed with.
pub const SEAL: u32 = 7;

/// A sealed pair may be invoked.
pub const CINVOKE: u32 = 8;

/// Addresses in the bounds are object types that may be unsealed.
pub const UNSEAL: u32 = 9;

/// Access to system registers; it has no effect in this machine.
pub const SYSREGS: u32 = 10;

/// Setting a compartment's identifier; it has no effect in this machine.
pub const SET_CID: u32 = 11;

/// Left to software, as are the three after it.
pub const SW0: u32 = 15;

pub const SW1: u32 = 16;

pub const SW2: u32 = 17;

pub const SW3: u32 = 18;
