//! The rows of values.

ghost use Rattle.std.specs.Prelude.{◌≡◌, ◌<◌, ◌++◌, OnOk, Some, codes, string_bytes, get_or};
ghost use Rattle.cheri_vectors.specs.Values.{
  value_of,
  name_of,
  result_of,
  given_text,
  result_text,
  operation_row,
  value_row,
  nothing_given,
};

use crate::words::bit_of;
use cap_ops::Cap;
use std::alloc::AllocError;
use std::fmt;

/// What is done with a value.
#[derive(Clone, Copy)]
pub enum Operation {
    ClearTag,
    SetAddress,
    IncOffset,
    SetBounds,
    SetBoundsExact,
    AndPerms,
    SetFlags,
    SetHigh,
    Seal,
    Unseal,
    SealEntry,
    Build,
    TestSubset,
    EqualExact,
}

use Operation::{
    AndPerms, Build, ClearTag, EqualExact, IncOffset, Seal, SealEntry, SetAddress, SetBounds,
    SetBoundsExact, SetFlags, SetHigh, TestSubset, Unseal,
};

/// A tag and a word, which need not be those of a capability.
#[derive(Clone, Copy)]
pub struct Given {
    pub tag: bool,
    pub upper: u64,
    pub addr: u64,
}

/// How many rows there are: each operation on each first and each second value.
pub const VALUE_ROWS: usize = 2016;

/// Every operation.
pub const OPERATIONS: [Operation; 14] = [
    ClearTag,
    SetAddress,
    IncOffset,
    SetBounds,
    SetBoundsExact,
    AndPerms,
    SetFlags,
    SetHigh,
    Seal,
    Unseal,
    SealEntry,
    Build,
    TestSubset,
    EqualExact,
];

/// The values that operations are done with.
pub const FIRST: [Given; 12] = [
    // null
    Given {
        tag: false,
        upper: 0,
        addr: 0,
    },
    // the root
    Given {
        tag: true,
        upper: 0xFFFF_0000_0000_0000,
        addr: 0,
    },
    // sixteen bytes
    Given {
        tag: true,
        upper: 0xFFFF_0000_0405_8004,
        addr: 0x8000_0000,
    },
    // a page, at an address inside, to load and store
    Given {
        tag: true,
        upper: 0x001D_0000_0001_8004,
        addr: 0x8000_0800,
    },
    // the sixteen bytes sealed with type 5
    Given {
        tag: true,
        upper: 0xFFFF_1FFF_D405_8004,
        addr: 0x8000_0000,
    },
    // a sentry
    Given {
        tag: true,
        upper: 0xFFFF_0000_0C05_8004,
        addr: 0x8000_0000,
    },
    // neither Global nor Execute, and the flag
    Given {
        tag: true,
        upper: 0xFFFC_2000_0405_8004,
        addr: 0x8000_0000,
    },
    // no tag
    Given {
        tag: false,
        upper: 0xFFFF_0000_0405_8004,
        addr: 0x8000_0000,
    },
    // words that no capability has: a reserved type, a reserved bit, and the root with the
    // exponent 53, which counts as 52
    Given {
        tag: true,
        upper: 0xFFFF_0000_1C05_8004,
        addr: 0x8000_0000,
    },
    Given {
        tag: true,
        upper: 0xFFFF_4000_0405_8004,
        addr: 0x8000_0000,
    },
    Given {
        tag: true,
        upper: 0xFFFF_0000_0000_0001,
        addr: 0,
    },
    // an authority over the types 4 to 7, at 5
    Given {
        tag: true,
        upper: 0xFFFF_0000_0403_8000,
        addr: 5,
    },
];

/// The second values, whose addresses are integers, too.
pub const SECOND: [Given; 12] = [
    // integers: null, a length, addresses in and out of the sixteen bytes' window, the last one
    Given {
        tag: false,
        upper: 0,
        addr: 0,
    },
    Given {
        tag: false,
        upper: 0,
        addr: 16,
    },
    Given {
        tag: false,
        upper: 0,
        addr: 0x8000_0008,
    },
    Given {
        tag: false,
        upper: 0,
        addr: 0x8000_4000,
    },
    Given {
        tag: false,
        upper: 0,
        addr: 0xFFFF_FFFF_FFFF_FFFF,
    },
    // authorities over the types 4 to 7: at 5, and past their end
    Given {
        tag: true,
        upper: 0xFFFF_0000_0403_8000,
        addr: 5,
    },
    Given {
        tag: true,
        upper: 0xFFFF_0000_0403_8000,
        addr: 8,
    },
    // without Seal and Unseal, without Global
    Given {
        tag: true,
        upper: 0x0005_0000_0403_8000,
        addr: 5,
    },
    Given {
        tag: true,
        upper: 0xFFFE_0000_0403_8000,
        addr: 5,
    },
    // an authority at a reserved type
    Given {
        tag: true,
        upper: 0xFFFF_0000_0000_0000,
        addr: 0x3_FFFC,
    },
    // sixteen bytes, and their word with a reserved bit
    Given {
        tag: true,
        upper: 0xFFFF_0000_0405_8004,
        addr: 0x8000_0000,
    },
    Given {
        tag: false,
        upper: 0xFFFF_4000_0405_8004,
        addr: 0x8000_0000,
    },
];

impl fmt::Display for Operation {
    ghost output = { λ operation. Some (name_of operation) };

    fn fmt<W: fmt::Write>(&self, f: &mut fmt::Formatter<W>) -> fmt::Result {
        f.write_str(match self {
            ClearTag => "clear_tag",
            SetAddress => "set_address",
            IncOffset => "inc_offset",
            SetBounds => "set_bounds",
            SetBoundsExact => "set_bounds_exact",
            AndPerms => "and_perms",
            SetFlags => "set_flags",
            SetHigh => "set_high",
            Seal => "seal",
            Unseal => "unseal",
            SealEntry => "seal_entry",
            Build => "build",
            TestSubset => "test_subset",
            EqualExact => "equal_exact",
        })
    }
}

/// The value that a tag and a word mean.
fn value_of(given: Given) -> Cap
    ensures { result ≡ value_of given }
{
    Cap::from_tagged(given.tag, given.upper, given.addr)
}

/// What an operation gives.
fn result_of(operation: Operation, first: Cap, second: Cap) -> Cap
    ensures { result ≡ result_of operation first second }
{
    match operation {
        ClearTag => first.clear_tag(),
        SetAddress => first.set_addr(second.addr()),
        IncOffset => first.inc_offset(second.addr()),
        SetBounds => first.set_bounds(second.addr()),
        SetBoundsExact => first.set_bounds_exact(second.addr()),
        AndPerms => first.and_perm(second.addr()),
        SetFlags => first.set_flags(second.addr()),
        SetHigh => first.set_high(second.addr()),
        Seal => first.seal(second),
        Unseal => first.unseal(second),
        SealEntry => first.seal_entry(),
        Build => first.build(second),
        TestSubset => Cap::of_int(u64::from(bit_of(first.test_subset(second)))),
        EqualExact => Cap::of_int(u64::from(bit_of(first.equal_exact(second)))),
    }
}

/// Appends a tag and a word.
fn push_given(out: &mut String, given: Given) -> Result<(), AllocError>
    ensures { OnOk result (string_bytes out.new ≡ string_bytes out.old ++ given_text given) }
{
    let tag = bit_of(given.tag);
    let (upper, addr) = (given.upper, given.addr);
    write!(out, " {tag:x} {upper:x} {addr:x}")?;
    Ok(())
}

/// Appends a value, up to the end of the line.
fn push_result(out: &mut String, value: Cap) -> Result<(), AllocError>
    ensures { OnOk result (string_bytes out.new ≡ string_bytes out.old ++ result_text value) }
{
    let tag = bit_of(value.tag());
    let (upper, addr) = (value.high(), value.addr());
    writeln!(out, " {tag:x} {upper:x} {addr:x}")?;
    Ok(())
}

/// Appends the row of an operation.
fn push_operation(
    out: &mut String,
    operation: Operation,
    first: Given,
    second: Given,
) -> Result<(), AllocError>
    ensures { OnOk result (string_bytes out.new ≡
        string_bytes out.old ++ operation_row operation first second) }
{
    write!(out, "value {operation}")?;
    push_given(out, first)?;
    push_given(out, second)?;
    push_result(out, result_of(operation, value_of(first), value_of(second)))
}

/// Appends the row of an operation on a first and a second value.
pub fn push_value_row(out: &mut String, n: usize) -> Result<(), AllocError>
    requires { n < VALUE_ROWS }
    ensures { OnOk result (string_bytes out.new ≡ string_bytes out.old ++ value_row n) }
{
    push_operation(out, OPERATIONS[n / 144], FIRST[n / 12 % 12], SECOND[n % 12])
}
