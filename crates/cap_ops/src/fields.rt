//! Fields of upper halves, and upper halves with one field replaced.
#![tactic(auto, using(crate::proofs::Exactness::rounded), unfolding(crate::proofs::Unfold::fields))]

ghost use Rattle.std.specs.Prelude.{◌≡◌, ◌/◌, ◌^◌, ◌<◌, ◌≤◌};
ghost use Rattle.cap_model.specs.words.Fields.{with_null_fields, perms_of_field};
ghost use Rattle.cap_model.specs.results.EditedWords.{
  with_perms,
  with_flag,
  with_otype,
  with_bounds_fields,
  with_rounded_fields,
};
ghost use Rattle.cap_model.specs.bounds.Rounding.{rounded_base, rounded_top};
ghost use Rattle.cap_model.specs.results.Addresses.{is_exact};

use cap_bounds::{Rounded, exclusive_or_null, set_bounds};

/// The permissions as the upper half has them, which are its high 16 bits.
pub(crate) fn permission_field(upper: u64) -> u16
    ensures { result ≡ with_null_fields upper / 2 ^ 48 }
{
    (exclusive_or_null(upper) >> 48) as u16
}

/// The permissions as CGetPerm shows them.
pub(crate) fn shown_permissions(field: u16) -> u32
    ensures { result ≡ perms_of_field field }
{
    let field = u32::from(field);
    field >> 12 << 15 | field & 0xfff
}

/// The upper half with other permissions, which are its high 16 bits.
pub(crate) fn with_perms(upper: u64, perms: u32) -> u64
    requires { perms < 2 ^ 19 }
    ensures { result ≡ with_perms upper perms }
{
    let field = u64::from(perms >> 15 << 12 | perms & 0xfff);
    exclusive_or_null(field << 48 | exclusive_or_null(upper) & 0xffff_ffff_ffff)
}

/// The upper half with another flag, which is its bit 45.
pub(crate) fn with_flag(upper: u64, flag: u8) -> u64
    requires { flag < 2 }
    ensures { result ≡ with_flag upper flag }
{
    let fields = exclusive_or_null(upper);
    exclusive_or_null((fields >> 46 << 46) + (u64::from(flag) << 45) + fields % (1 << 45))
}

/// The upper half with another object type, which is its 18 bits from bit 27 on.
pub(crate) fn with_otype(upper: u64, otype: u32) -> u64
    requires { otype < 2 ^ 18 }
    ensures { result ≡ with_otype upper otype }
{
    let fields = exclusive_or_null(upper);
    exclusive_or_null((fields >> 45 << 45) + (u64::from(otype) << 27) + fields % (1 << 27))
}

/// The upper half with other fields IE, T and B, which are its low 27 bits.
pub(crate) fn with_bounds_fields(upper: u64, ie: u8, t: u16, b: u16) -> u64
    requires ie { ie < 2 }
    requires t { t < 2 ^ 12 }
    requires b { b < 2 ^ 14 }
    ensures { result ≡ with_bounds_fields upper ie t b }
{
    let high = exclusive_or_null(upper) >> 27 << 27;
    exclusive_or_null(high + (u64::from(ie) << 26) + (u64::from(t) << 14) + u64::from(b))
}

/// The upper half whose bounds fields are those of the rounding of base and length, and the
/// rounding.
pub(crate) fn with_rounded_fields(upper: u64, base: u64, len: u128) -> (u64, Rounded)
    requires { len ≤ 2 ^ 64 }
    ensures fields { result.0 ≡ with_rounded_fields upper base len }
    ensures base { result.1.base ≡ rounded_base base len }
    ensures top { result.1.top ≡ rounded_top base len }
    ensures exact { result.1.exact ≡ is_exact base len }
{
    let rounded = set_bounds(base, len);
    let upper = with_bounds_fields(upper, rounded.ie, rounded.t, rounded.b);
    (upper, rounded)
}
