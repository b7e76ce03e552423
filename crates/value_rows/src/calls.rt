//! Calls on values and on bounds.

use crate::numbers::{Numbers, lawful_type, low, perms, value};
use crate::printing::{push_bounds, push_number, push_reading};
use cap_bounds::{cram, crrl, decode, fields, representable, set_bounds};
use cap_ops::{Cap, MakeFault};
use cheri_model::ADDRESS_SPACE;
use std::alloc::AllocError;

/// What a call makes of numbers, or why it makes nothing; `None` where no call has this name.
pub fn made(name: &str, n: &Numbers) -> Option<Result<Cap, MakeFault>> {
    let (first, second, third) = (low(n[0]), low(n[1]), low(n[2]));
    match name {
        "null" => Some(Ok(Cap::null())),
        "of_int" => Some(Ok(Cap::of_int(first))),
        "from_word" => Some(Ok(Cap::from_word(
            u128::from(first) * ADDRESS_SPACE + u128::from(second),
        ))),
        "root" => Some(Ok(Cap::root(perms(n[0])))),
        "make" => Some(Cap::make(first, n[1], third, perms(n[3]))),
        "make_sealed" => Some(Cap::make_sealed(first, n[1], third, perms(n[3]), lawful_type(n[4]))),
        _ => None,
    }
}

/// What a call makes of a value and of a number or another value; `None` where no call has this
/// name.
pub fn changed(name: &str, n: &Numbers) -> Option<Cap> {
    let held = value(n[0], n[1], n[2]);
    let (number, other) = (low(n[3]), value(n[3], n[4], n[5]));
    match name {
        "from_tagged" => Some(held),
        "clear_tag" => Some(held.clear_tag()),
        "set_addr" => Some(held.set_addr(number)),
        "inc_offset" => Some(held.inc_offset(number)),
        "set_bounds" => Some(held.set_bounds(number)),
        "set_bounds_exact" => Some(held.set_bounds_exact(number)),
        "and_perm" => Some(held.and_perm(number)),
        "set_flags" => Some(held.set_flags(number)),
        "set_high" => Some(held.set_high(number)),
        "seal" => Some(held.seal(other)),
        "unseal" => Some(held.unseal(other)),
        "seal_entry" => Some(held.seal_entry()),
        "unsealed" => Some(held.unsealed()),
        "build" => Some(held.build(other)),
        "of_value" => Some(Cap::of_value(held.value())),
        _ => None,
    }
}

/// The number that a call answers; `None` where no call has this name.
pub fn number(name: &str, n: &Numbers) -> Option<u64> {
    let (held, other) = (value(n[0], n[1], n[2]), value(n[3], n[4], n[5]));
    match name {
        "crrl" => Some(crrl(low(n[0]))),
        "cram" => Some(cram(low(n[0]))),
        "representable" => Some(u64::from(representable(low(n[0]), low(n[1]), low(n[2])))),
        "has_permission" => Some(u64::from(held.has_permission((low(n[3]) % 19) as u32))),
        "test_subset" => Some(u64::from(held.test_subset(other))),
        "equal_exact" => Some(u64::from(held.equal_exact(other))),
        "equal" => Some(u64::from(held == other)),
        _ => None,
    }
}

/// Appends the fields of an upper half.
fn push_fields(out: &mut String, upper: u64) -> Result<(), AllocError> {
    let parts = fields(upper);
    let (perms, otype, flag) = (parts.perms, parts.otype, parts.flag);
    let (reserved, ie, e) = (parts.reserved, parts.ie, parts.e);
    write!(
        out,
        "{perms:x} {otype:x} {flag:x} {reserved:x} {ie:x} {e:x}"
    )?;
    Ok(())
}

/// Appends the rounding of the `len` addresses from `base` on, or of 2^64 where there are more.
fn push_rounded(out: &mut String, base: u64, len: u128) -> Result<(), AllocError> {
    let rounded = set_bounds(base, len.min(ADDRESS_SPACE));
    let (ie, e, t, b) = (rounded.ie, rounded.e, rounded.t, rounded.b);
    let exact = u8::from(rounded.exact);
    write!(out, "{ie:x} {e:x} {t:x} {b:x} {exact} ")?;
    push_bounds(out, rounded.base, rounded.top)
}

/// Appends what a call reads off a value, a word or a range. Whether a call has this name.
pub fn push_read(out: &mut String, name: &str, n: &Numbers) -> Result<bool, AllocError> {
    match name {
        "read" => push_reading(out, value(n[0], n[1], n[2]))?,
        "fields" => push_fields(out, low(n[0]))?,
        "decode" => {
            let (base, top) = decode(low(n[0]), low(n[1]));
            push_bounds(out, base, top)?;
        }
        "round" => push_rounded(out, low(n[0]), n[1])?,
        _ => return Ok(false),
    }
    Ok(true)
}
