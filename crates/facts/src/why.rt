//! Reasons, with the numbers that they speak of: why a tag was lost, and why a step trapped.

use cheri_model::{OType, Perms};
use origins::Spot;

/// Why the result of an instruction has no tag although its source had one, or why a granule lost
/// its tag (CHERI ISA v9, the instructions' own pages). `source` is c1 and `authority` is c2; of
/// AUIPCC the source is PCC.
#[derive(Clone, Copy, PartialEq, Eq)]
pub enum Why {
    /// The instruction clears the tag.
    AskedFor,
    /// The upper half is replaced.
    UpperReplaced,
    /// A register is sealed with this object type, and may not be.
    Sealed {
        name: Spot,
        otype: OType,
    },
    /// The new address is outside the representable region, which has 2^`power` bytes from `start`
    /// on, modulo 2^64.
    OutsideRegion {
        address: u64,
        power: u32,
        start: u64,
    },
    /// The requested or rebuilt base is below the source's.
    BaseBelow {
        base: u64,
        limit: u64,
    },
    /// The end of the requested range is above the source's top.
    EndAbove {
        end: u128,
        limit: u128,
    },
    /// The requested range can't be encoded: it rounds to these bounds.
    Rounds {
        base: u64,
        top: u128,
    },
    /// A register lacks the permission with this number.
    Lacks {
        name: Spot,
        permission: u32,
    },
    /// A register is untagged.
    Untagged {
        name: Spot,
    },
    /// The object type, which is the authority's address, is outside its bounds.
    TypeOutside {
        otype: u64,
        base: u64,
        top: u128,
        authority: Spot,
    },
    /// No capability can be sealed with the object type: it is above the last sealable one.
    TypeAbove {
        otype: u64,
    },
    /// The source, which is to be unsealed, is not sealed.
    NotSealed {
        name: Spot,
    },
    /// The source, which is to be unsealed, is a sentry.
    Sentry {
        name: Spot,
    },
    /// The authority's address is another object type than the source's.
    TypeDiffers {
        otype: u64,
        authority: Spot,
        sealed: OType,
    },
    /// The word that is rebuilt has a reserved bit.
    ReservedBits {
        name: Spot,
    },
    /// The rebuilt top is above the source's.
    TopAbove {
        top: u128,
        limit: u128,
    },
    /// The word that is rebuilt has its base above its top.
    BaseAboveTop {
        base: u64,
        top: u128,
    },
    /// The word that is rebuilt has these permissions, which the source lacks.
    MorePermissions {
        name: Spot,
        permissions: Perms,
        source: Spot,
    },
    /// The bounds of the word that is rebuilt are no multiples of their length's alignment. No word
    /// has such bounds.
    NotAligned {
        alignment: u64,
    },
    /// Data was stored over a capability.
    DataStored,
}

/// Why a step trapped: the check that failed, with the numbers that it compared. `name` is the
/// register that the trap names.
#[derive(Clone, Copy, PartialEq, Eq)]
pub enum TrapWhy {
    /// The register is untagged.
    Untagged {
        name: Spot,
    },
    /// The register is sealed with this object type.
    Sealed {
        name: Spot,
        otype: OType,
    },
    /// The register is not sealed with a type that can be invoked.
    NotInvocable {
        name: Spot,
    },
    /// The register lacks the permission with this number.
    Lacks {
        name: Spot,
        permission: u32,
    },
    /// The register has Execute, which invoked data may not have.
    HasExecute {
        name: Spot,
    },
    /// The register lacks Store_Capability, and what is stored is tagged.
    LacksStoreCap {
        name: Spot,
        stored: Spot,
    },
    /// The register lacks Store_Local_Capability, and what is stored is tagged and not Global.
    LacksStoreLocal {
        name: Spot,
        stored: Spot,
    },
    /// These bytes are not in the register's bounds.
    Outside {
        bytes: u64,
        address: u64,
        base: u64,
        top: u128,
        name: Spot,
    },
    /// The address is no multiple of the count of bytes.
    Misaligned {
        address: u64,
        bytes: u64,
    },
    /// These bytes are not in RAM.
    NotInRam {
        bytes: u64,
        address: u64,
    },
    /// No instruction is at PCC's address.
    NoInstruction {
        address: u64,
    },
    /// The object types of the invoked pair of code and data differ.
    TypesDiffer {
        code: OType,
        data: OType,
    },
}
