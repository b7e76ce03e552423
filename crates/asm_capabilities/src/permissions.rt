//! The permissions of what a program begins with, as sets of bits.

use cap_model::permission;

/// Of code alone.
pub const CODE: u32 = 1 << permission::GLOBAL | 1 << permission::EXECUTE | 1 << permission::CINVOKE;

/// Of code that reads memory through PCC.
pub const CODE_AND_MEMORY: u32 = CODE | 1 << permission::LOAD | 1 << permission::LOAD_CAP;

/// Of constants and of the capability table.
pub const READ_ONLY: u32 = 1 << permission::GLOBAL
    | 1 << permission::LOAD
    | 1 << permission::LOAD_CAP
    | 1 << permission::CINVOKE;

/// Of variables.
pub const WRITABLE: u32 = READ_ONLY | 1 << permission::STORE | 1 << permission::STORE_CAP;

/// Of a stack.
pub const STACK: u32 = WRITABLE | 1 << permission::STORE_LOCAL;
