//! The capability instructions, of values as C has them: a change that is not allowed gives the
//! edited word without a tag (CHERI ISA v9, "capability instructions").

ghost use Rattle.std.specs.Prelude.{◌≡◌};
ghost use Rattle.cap_model.specs.results.Fields.{and_perm, set_flags, set_high};
ghost use Rattle.cap_model.specs.results.Readings.{is_subset, is_equal_exact};
ghost use Rattle.cap_model.specs.results.Rebuilt.{build};
ghost use Rattle.cap_model.specs.results.Addresses.{
  clear_tag,
  set_address,
  inc_offset,
  set_bounds,
  set_bounds_exact,
};
ghost use Rattle.cap_model.specs.results.Seals.{seal, unseal, seal_entry};
ghost use Rattle.cheri_caps.specs.Structs.{value_of, struct_of};

use crate::structs::CheriCap;
use crate::values::{struct_of, value_of};

/// The same word without a tag (CClearTag).
#[unsafe(no_mangle)]
pub extern "C" fn cheri_caps_clear_tag(cap: CheriCap) -> CheriCap
    ensures { result ≡ struct_of (clear_tag (value_of cap)) }
{
    struct_of(value_of(cap).clear_tag())
}

/// Another address (CSetAddr). The tag stays where the value is open and its bounds stay the same.
#[unsafe(no_mangle)]
pub extern "C" fn cheri_caps_set_address(cap: CheriCap, addr: u64) -> CheriCap
    ensures { result ≡ struct_of (set_address (value_of cap) addr) }
{
    struct_of(value_of(cap).set_addr(addr))
}

/// The address raised by an offset, modulo 2^64 (CIncOffset). The tag stays as in `set_address`.
#[unsafe(no_mangle)]
pub extern "C" fn cheri_caps_inc_offset(cap: CheriCap, offset: u64) -> CheriCap
    ensures { result ≡ struct_of (inc_offset (value_of cap) offset) }
{
    struct_of(value_of(cap).inc_offset(offset))
}

/// The rounding of the `len` addresses from the address on as bounds (CSetBounds). The tag stays
/// where the value is open and the requested range lies in its bounds.
#[unsafe(no_mangle)]
pub extern "C" fn cheri_caps_set_bounds(cap: CheriCap, len: u64) -> CheriCap
    ensures { result ≡ struct_of (set_bounds (value_of cap) len) }
{
    struct_of(value_of(cap).set_bounds(len))
}

/// As `set_bounds`, and the tag stays only where nothing is rounded (CSetBoundsExact).
#[unsafe(no_mangle)]
pub extern "C" fn cheri_caps_set_bounds_exact(cap: CheriCap, len: u64) -> CheriCap
    ensures { result ≡ struct_of (set_bounds_exact (value_of cap) len) }
{
    struct_of(value_of(cap).set_bounds_exact(len))
}

/// The permissions that are also in the mask (CAndPerm). The tag stays where the value is open.
#[unsafe(no_mangle)]
pub extern "C" fn cheri_caps_and_perms(cap: CheriCap, mask: u64) -> CheriCap
    ensures { result ≡ struct_of (and_perm (value_of cap) mask) }
{
    struct_of(value_of(cap).and_perm(mask))
}

/// The lowest bit of a number as the flag (CSetFlags). The tag stays where the value is open.
#[unsafe(no_mangle)]
pub extern "C" fn cheri_caps_set_flags(cap: CheriCap, flags: u64) -> CheriCap
    ensures { result ≡ struct_of (set_flags (value_of cap) flags) }
{
    struct_of(value_of(cap).set_flags(flags))
}

/// Another upper half, never with a tag (CSetHigh).
#[unsafe(no_mangle)]
pub extern "C" fn cheri_caps_set_high(cap: CheriCap, upper: u64) -> CheriCap
    ensures { result ≡ struct_of (set_high (value_of cap) upper) }
{
    struct_of(value_of(cap).set_high(upper))
}

/// Sealed with the authority's address as the type (CSeal). The tag stays where the value and the
/// authority are open, the authority has Seal and its address in its bounds, and that is a sealable
/// type.
#[unsafe(no_mangle)]
pub extern "C" fn cheri_caps_seal(cap: CheriCap, authority: CheriCap) -> CheriCap
    ensures { result ≡ struct_of (seal (value_of cap) (value_of authority)) }
{
    struct_of(value_of(cap).seal(value_of(authority)))
}

/// Unsealed; Global stays only where both have it (CUnseal). The tag stays where the value is
/// tagged with a sealable type, and the authority is open, has Unseal and this type as its address,
/// in its bounds.
#[unsafe(no_mangle)]
pub extern "C" fn cheri_caps_unseal(cap: CheriCap, authority: CheriCap) -> CheriCap
    ensures { result ≡ struct_of (unseal (value_of cap) (value_of authority)) }
{
    struct_of(value_of(cap).unseal(value_of(authority)))
}

/// Sealed as a sentry (CSealEntry). The tag stays where the value is open and has Execute.
#[unsafe(no_mangle)]
pub extern "C" fn cheri_caps_seal_entry(cap: CheriCap) -> CheriCap
    ensures { result ≡ struct_of (seal_entry (value_of cap)) }
{
    struct_of(value_of(cap).seal_entry())
}

/// The capability that the source's word says, unsealed, under an authority (CBuildCap). It is
/// tagged where the authority is open, the source's bounds and permissions lie in its own, and a
/// capability can have these bounds and this address, with no reserved bit; otherwise it is the
/// source's word without a tag.
#[unsafe(no_mangle)]
pub extern "C" fn cheri_caps_build(authority: CheriCap, source: CheriCap) -> CheriCap
    ensures { result ≡ struct_of (build (value_of authority) (value_of source)) }
{
    struct_of(value_of(authority).build(value_of(source)))
}

/// Whether the tags are equal, and the second's bounds and permissions lie in the first's
/// (CTestSubset).
#[unsafe(no_mangle)]
pub extern "C" fn cheri_caps_test_subset(cap: CheriCap, other: CheriCap) -> bool
    ensures { result ≡ is_subset (value_of cap) (value_of other) }
{
    value_of(cap).test_subset(value_of(other))
}

/// Whether the tags and the words are equal (CSetEqualExact).
#[unsafe(no_mangle)]
pub extern "C" fn cheri_caps_equal_exact(cap: CheriCap, other: CheriCap) -> bool
    ensures { result ≡ is_equal_exact (value_of cap) (value_of other) }
{
    value_of(cap).equal_exact(value_of(other))
}
