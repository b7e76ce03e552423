//! Reasons for a result without a tag.

/// Why the result of a capability instruction has no tag (CHERI ISA v9, "capability instructions").
/// The source is the value that the result is made of, and the authority is the one that a seal is
/// set or taken off by. Under CBuildCap the source is the authority c1, and the word is c2.
#[derive(Clone, Copy, Debug, PartialEq, Eq)]
pub enum Reason {
    /// The instruction clears the tag.
    Cleared,
    /// The upper half is replaced.
    UpperReplaced,
    /// The source is untagged.
    SourceUntagged,
    /// The source is sealed.
    SourceSealed,
    /// The source, which is to be unsealed, is not sealed.
    SourceUnsealed,
    /// The source, which is to be unsealed, is a sentry.
    SourceSentry,
    /// The authority is untagged.
    AuthorityUntagged,
    /// The authority is sealed.
    AuthoritySealed,
    /// The source lacks Execute.
    NoExecute,
    /// The authority lacks Seal.
    NoSeal,
    /// The authority lacks Unseal.
    NoUnseal,
    /// The address is outside the window.
    NotRepresentable,
    /// The requested or rebuilt base is below the source's.
    BaseBelow,
    /// The end of the requested range is above the source's top.
    EndAbove,
    /// The rebuilt top is above the source's.
    TopAbove,
    /// The requested range is rounded.
    Rounded,
    /// The object type is outside the authority's bounds.
    TypeOutside,
    /// No capability can be sealed with the object type.
    TypeNotSealable,
    /// The authority's address is another object type than the source's.
    TypeDiffers,
    /// The word has a reserved bit.
    ReservedBits,
    /// The word's base is above its top.
    BaseAboveTop,
    /// The word has a permission that the source lacks.
    MorePermissions,
    /// The word's bounds are no multiples of their length's alignment.
    NotAligned,
}
