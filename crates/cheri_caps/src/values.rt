//! Values as C has them: a word and a tag that may say anything.

ghost use Rattle.std.specs.Prelude.{◌≡◌, ◌/◌, ◌%◌, ◌^◌};
ghost use Rattle.cap_model.specs.values.CapValue.{raw};
ghost use Rattle.cap_ops.specs.Making.{root_with};
ghost use Rattle.cheri_caps.specs.Structs.{value_of, struct_of, parts_with};

use crate::structs::{CheriCap, CheriParts};
use bitflags::Flags;
use cap_model::Perms;
use cap_ops::Cap;

/// The value that a struct means. A tag on a word that no capability has counts as none.
pub(crate) fn value_of(cap: CheriCap) -> Cap
    ensures { result ≡ value_of cap }
{
    Cap::from_tagged(cap.tag, cap.upper, cap.addr)
}

/// The struct that is a value.
pub(crate) fn struct_of(value: Cap) -> CheriCap
    ensures { result ≡ struct_of value }
{
    CheriCap {
        addr: value.addr(),
        upper: value.high(),
        tag: value.tag(),
    }
}

/// The halves of a top, the lower one first.
pub(crate) fn halves(top: u128) -> (u64, u64)
    ensures low { result.0 ≡ top % 2 ^ 64 }
    ensures high { result.1 ≡ top / 2 ^ 64 }
{
    ((top & 0xffff_ffff_ffff_ffff) as u64, (top >> 64) as u64)
}

/// Null: an untagged word 0.
#[unsafe(no_mangle)]
pub extern "C" fn cheri_caps_null() -> CheriCap
    ensures { result ≡ struct_of (raw 0) }
{
    struct_of(Cap::null())
}

/// What a register holds to which an integer was written.
#[unsafe(no_mangle)]
pub extern "C" fn cheri_caps_of_integer(number: u64) -> CheriCap
    ensures { result ≡ struct_of (raw number) }
{
    struct_of(Cap::of_int(number))
}

/// The capability of the whole address space with these permissions, at address 0. Bits that no
/// permission has are dropped.
#[unsafe(no_mangle)]
pub extern "C" fn cheri_caps_root(perms: u32) -> CheriCap
    ensures { result ≡ struct_of (root_with perms) }
{
    struct_of(Cap::root(Perms::from_bits_retain(perms)))
}

/// What instructions read off a value: its bounds (CGetBase, and the top), length (CGetLen), offset
/// (CGetOffset), type (CGetType), permissions (CGetPerm) and flag (CGetFlags), whether it is sealed
/// (CGetSealed), and whether its tag counts (CGetTag).
#[unsafe(no_mangle)]
pub extern "C" fn cheri_caps_read(cap: CheriCap) -> CheriParts
    ensures { result ≡ parts_with (value_of cap) }
{
    let value = value_of(cap);
    let (base, top) = value.bounds();
    let (top, top_high) = halves(top);
    CheriParts {
        base,
        top,
        top_high,
        len: value.len(),
        offset: value.offset(),
        otype: value.otype(),
        perms: value.perm().bits(),
        flags: value.flags(),
        sealed: value.sealed(),
        tag: value.tag(),
    }
}
