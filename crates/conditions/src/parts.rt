//! What conditions and items are made of: places, atoms and what items show, as plain data.

use cheri_model::{Perms, Reg, Width};

/// What is read of a value, tagged or not.
#[derive(Clone, Copy, Debug, PartialEq, Eq)]
pub enum Field {
    /// The address (CGetAddr).
    Addr,
    /// The tag, 0 or 1 (CGetTag).
    Tag,
    /// The base (CGetBase).
    Base,
    /// The length (CGetLen).
    Len,
    /// The permissions (CGetPerm).
    Perms,
    /// 1 where the value is sealed, else 0 (CGetSealed).
    Sealed,
    /// The decoded top.
    Top,
    /// The number of the object type, of 18 bits.
    Type,
    /// All 128 bits.
    Word,
}

/// What holds a value: a register or PCC of the hart of a number, or the granule at an address.
#[derive(Clone, Copy, Debug, PartialEq, Eq)]
pub enum Holder {
    Register(u8, Reg),
    Pcc(u8),
    Granule(u64),
}

/// A number of a state: a field of a value, or the bytes at an address.
#[derive(Clone, Copy, Debug, PartialEq, Eq)]
pub enum Place {
    Value(Holder, Field),
    Data(u64, Width),
}

/// How a number is compared with another, as whole numbers.
#[derive(Clone, Copy, Debug, PartialEq, Eq)]
pub enum Comparison {
    Equal,
    NotEqual,
    Less,
    AtMost,
    Greater,
    AtLeast,
}

/// What is asked of a hart's status.
#[derive(Clone, Copy, Debug, PartialEq, Eq)]
pub enum StatusTest {
    Running,
    Halted,
    /// Stopped by a trap of any cause.
    Trapped,
    /// Stopped by a trap of this cause.
    TrappedBy(u8),
}

/// The hart that is spoken of: that of a number, or each one in turn, as `h` names it.
#[derive(Clone, Copy, Debug, PartialEq, Eq)]
pub enum Subject {
    Numbered(u8),
    Each,
}

/// What a hart holds: a register or PCC.
#[derive(Clone, Copy, Debug, PartialEq, Eq)]
pub enum Own {
    Register(Reg),
    Pcc,
}

/// A number that is read in a state: a field of a value, the bytes at an address, or a field of
/// what each hart in turn holds.
#[derive(Clone, Copy, Debug, PartialEq, Eq)]
pub enum Source {
    Value(Holder, Field),
    Data(u64, Width),
    Each(Own, Field),
}

/// What a number is compared with.
#[derive(Clone, Copy, Debug, PartialEq, Eq)]
pub enum Term {
    Number(u128),
    Source(Source),
}

/// One thing that a condition says of a state.
#[derive(Clone, Copy, Debug, PartialEq, Eq)]
pub enum Atom {
    /// The two numbers compare so.
    Compares(Source, Comparison, Term),
    /// The hart has such a status.
    HasStatus(Subject, StatusTest),
    /// The hart holds a tagged capability, in a register or its PCC and sealed or not, that has
    /// this address in its bounds and all of these permissions.
    Reaches(Subject, u64, Perms),
    /// The address of the hart's PCC is this one.
    IsAt(Subject, u64),
    /// The address of the hart's PCC is at least the first one and below the second.
    IsIn(Subject, u64, u64),
}

/// How two parts of a condition are joined.
#[derive(Clone, Copy, Debug, PartialEq, Eq)]
pub enum Joint {
    And,
    Or,
}

/// One node of a condition. A node stands after its parts, which are the nodes just before it.
#[derive(Clone, Copy, Debug, PartialEq, Eq)]
pub enum Node {
    Says(Atom),
    Not,
    /// A part in parentheses.
    Enclosed,
    /// Two parts; the second one is so many nodes.
    Joined(Joint, usize),
    /// The number of harts of which the part holds compares so with this one.
    Counted(Comparison, u128),
}

/// What an item shows: the number at a place, or the status of the hart of a number.
#[derive(Clone, Copy, Debug, PartialEq, Eq)]
pub enum Shown {
    Number(Place),
    Status(u8),
}
