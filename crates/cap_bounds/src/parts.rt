//! The fields of a word's upper half, each on its own.

/// The fields of a 128-bit word, tagged or not, before the exclusive-or with null's fields (CHERI
/// ISA v9, "capability encoding"). No bounds are among them: these depend on the address too.
#[derive(Clone, Copy, PartialEq, Eq, Debug)]
pub struct Fields {
    /// The permissions as CGetPerm shows them: bits 0 to 11, and the software permissions in bits
    /// 15 to 18.
    pub perms: u32,
    /// The object type, of 18 bits.
    pub otype: u32,
    /// The flag, 0 or 1.
    pub flag: u8,
    /// The two reserved bits, which are 0 in every tagged word.
    pub reserved: u8,
    /// The internal exponent bit IE, 0 or 1.
    pub ie: u8,
    /// The exponent E that bounds are decoded with: 0 where IE is 0, and at most 52.
    pub e: u8,
}
