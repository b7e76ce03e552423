//! The numbers of the capability format. Null's fields are this project's own.

/// The upper half of the null capability's fields: unsealed, IE 1, T 0x006, B 0x0004, and all
/// others 0. A word in memory is its fields exclusive-or this, so that null is the word 0 (CHERI
/// ISA v9, "capability encoding").
pub const NULL_FIELDS: u64 = 0x0000_1FFF_FC01_8004;

/// The greatest exponent: a greater one in a word counts as this one.
pub const MAX_EXPONENT: u8 = 52;

/// How many addresses there are. It is also the greatest top of lawful bounds, and the greatest
/// length.
pub const ADDRESS_SPACE: u128 = 1 << 64;
