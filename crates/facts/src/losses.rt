//! Why a result has no tag: for each capability instruction the first line of its table of reasons
//! that holds, with the numbers that it speaks of (CHERI ISA v9, the instructions' own pages).
#![tactic(auto, using(crate::proofs::Rulesets::losses), unfolding(crate::proofs::Unfold::losses))]

ghost use Rattle.std.specs.Prelude.{◌≡◌, ◌+◌, ◌%◌, ◌^◌, ◌<◌, ◌≤◌, None};
ghost use Rattle.cap_model.specs.results.Addresses.{address_of};
ghost use Rattle.cap_model.specs.results.Readings.{base_of, top_of, object_type_of};
ghost use Rattle.cap_model.specs.bounds.Lengths.{exponent};
ghost use Rattle.cap_model.specs.results.CapInstructions as cap;
ghost use Rattle.facts.specs.Losses.{outside_region, lacking, why_lost};
ghost use Rattle.facts.specs.Whys.{
  not_open,
  range_outside,
  no_authority,
  not_sealed,
  rebuilt_outside,
  more_permissions,
  not_buildable,
};

use crate::operands::Operands;
use crate::why::Why;
use bitflags::Flags;
use cap_bounds::{fields, set_bounds};
use cap_ops::Cap;
use cheri_model::{LAST_SEALABLE_TYPE, Perms, SENTRY_TYPE, permission};
use origins::Spot;

/// The exponent of a length: the number of its binary digits from bit 13 on.
fn exponent_of(len: u128) -> u8
    requires { len ≤ 2 ^ 64 }
    ensures value { result ≡ exponent len }
    ensures at_most { result ≤ 52 }
{
    (64 - ((len >> 13) as u64).leading_zeros()) as u8
}

/// An address outside the representable region of these bounds.
fn outside_region(base: u64, top: u128, address: u64) -> Why
    requires ordered { base ≤ top }
    requires within { top ≤ 2 ^ 64 }
    ensures { result ≡ outside_region base top address }
{
    let e = exponent_of(top - u128::from(base));
    let step: u128 = 1 << (e + 11);
    let rounded = u128::from(base) / step * step;
    Why::OutsideRegion {
        address,
        power: u32::from(e) + 14,
        start: (((1 << 64) + rounded - step) % (1 << 64)) as u64,
    }
}

/// The permissions of a value that another lacks.
fn lacking(value: Cap, other: Cap) -> Perms
    ensures { result ≡ lacking value other }
{
    let (has, may) = (value.perm().bits(), other.perm().bits());
    Perms::from_bits_retain(has - (has & may))
}

/// A register that is sealed.
fn sealed(name: Spot, value: Cap) -> Why
    ensures { result ≡ Why.Sealed name (object_type_of value) }
{
    Why::Sealed {
        name,
        otype: value.object_type(),
    }
}

/// An object type outside the authority's bounds.
fn type_outside(o: &Operands) -> Why
    ensures { result ≡ Why.TypeOutside (address_of o.now.w) (base_of o.now.w) (top_of o.now.w)
        o.now.authority }
{
    let (base, top) = o.w.bounds();
    Why::TypeOutside {
        otype: o.w.addr(),
        base,
        top,
        authority: o.authority,
    }
}

/// Why the source is not open, if it is not.
fn not_open(o: &Operands) -> Option<Why>
    ensures { result ≡ not_open o.now }
{
    if !o.v.tag() {
        return Some(Why::Untagged { name: o.source });
    }
    if o.v.sealed() {
        return Some(sealed(o.source, o.v));
    }
    None
}

/// Of CMove, which loses no tag.
pub fn untagged_why(o: &Operands) -> Option<Why>
    ensures { result ≡ why_lost cap.CMove o.now }
{
    if !o.v.tag() {
        return Some(Why::Untagged { name: o.source });
    }
    None
}

/// Of CAndPerm and CSetFlags.
pub fn open_why(o: &Operands) -> Option<Why>
    ensures perms { result ≡ why_lost cap.CAndPerm o.now }
    ensures flags { result ≡ why_lost cap.CSetFlags o.now }
{
    not_open(o)
}

/// Of CSetAddr and CIncOffset, which give the source this address.
pub fn moved_why(o: &Operands, address: u64) -> Option<Why>
    ensures set { address ≡ address_of o.now.w → result ≡ why_lost cap.CSetAddr o.now }
    ensures raised { address ≡ (address_of o.now.v + address_of o.now.w) % 2 ^ 64 →
        result ≡ why_lost cap.CIncOffset o.now }
{
    if let Some(why) = not_open(o) {
        return Some(why);
    }
    if !o.v.set_addr(address).tag() {
        let (base, top) = o.v.bounds();
        return Some(outside_region(base, top, address));
    }
    None
}

/// Why a requested range is not in the source's bounds, if it is not.
fn range_outside(o: &Operands) -> Option<Why>
    ensures { result ≡ range_outside o.now }
{
    let (base, top) = o.v.bounds();
    let address = o.v.addr();
    if address < base {
        return Some(Why::BaseBelow {
            base: address,
            limit: base,
        });
    }
    let end = u128::from(address) + u128::from(o.w.addr());
    if top < end {
        return Some(Why::EndAbove { end, limit: top });
    }
    None
}

/// Of CSetBounds.
pub fn bounds_why(o: &Operands) -> Option<Why>
    ensures { result ≡ why_lost cap.CSetBounds o.now }
{
    if let Some(why) = not_open(o) {
        return Some(why);
    }
    range_outside(o)
}

/// Of CSetBoundsExact.
pub fn exact_bounds_why(o: &Operands) -> Option<Why>
    ensures { result ≡ why_lost cap.CSetBoundsExact o.now }
{
    if let Some(why) = not_open(o) {
        return Some(why);
    }
    if let Some(why) = range_outside(o) {
        return Some(why);
    }
    let rounded = set_bounds(o.v.addr(), u128::from(o.w.addr()));
    if !rounded.exact {
        return Some(Why::Rounds {
            base: rounded.base,
            top: rounded.top,
        });
    }
    None
}

/// Of CSealEntry.
pub fn seal_entry_why(o: &Operands) -> Option<Why>
    ensures { result ≡ why_lost cap.CSealEntry o.now }
{
    if let Some(why) = not_open(o) {
        return Some(why);
    }
    if !o.v.has_permission(permission::EXECUTE) {
        return Some(Why::Lacks {
            name: o.source,
            permission: permission::EXECUTE,
        });
    }
    None
}

/// Why the authority, by this permission, has none over the object type that is its address, if it
/// has none.
fn no_authority(o: &Operands, permission: u32) -> Option<Why>
    requires { permission < 19 }
    ensures { result ≡ no_authority o.now permission }
{
    if !o.w.tag() {
        return Some(Why::Untagged { name: o.authority });
    }
    if o.w.sealed() {
        return Some(sealed(o.authority, o.w));
    }
    if !o.w.has_permission(permission) {
        return Some(Why::Lacks {
            name: o.authority,
            permission,
        });
    }
    if !o.w.holds(o.w.addr(), 1) {
        return Some(type_outside(o));
    }
    None
}

/// Of CSeal.
pub fn seal_why(o: &Operands) -> Option<Why>
    ensures { result ≡ why_lost cap.CSeal o.now }
{
    if let Some(why) = not_open(o) {
        return Some(why);
    }
    if let Some(why) = no_authority(o, permission::SEAL) {
        return Some(why);
    }
    let otype = o.w.addr();
    if otype > u64::from(LAST_SEALABLE_TYPE) {
        return Some(Why::TypeAbove { otype });
    }
    None
}

/// Why the source can't be unsealed, whatever the authority, if it can't.
fn not_sealed(o: &Operands) -> Option<Why>
    ensures { result ≡ not_sealed o.now }
{
    if !o.v.tag() {
        return Some(Why::Untagged { name: o.source });
    }
    if !o.v.sealed() {
        return Some(Why::NotSealed { name: o.source });
    }
    if o.v.object_type().number() == SENTRY_TYPE {
        return Some(Why::Sentry { name: o.source });
    }
    None
}

/// Of CUnseal.
pub fn unseal_why(o: &Operands) -> Option<Why>
    ensures { result ≡ why_lost cap.CUnseal o.now }
{
    if let Some(why) = not_sealed(o) {
        return Some(why);
    }
    if let Some(why) = no_authority(o, permission::UNSEAL) {
        return Some(why);
    }
    let sealed = o.v.object_type();
    if o.w.addr() != u64::from(sealed.number()) {
        return Some(Why::TypeDiffers {
            otype: o.w.addr(),
            authority: o.authority,
            sealed,
        });
    }
    None
}

/// Why the bounds of the word that is rebuilt are not in order and in the source's, if they are
/// not.
fn rebuilt_outside(o: &Operands) -> Option<Why>
    ensures { result ≡ rebuilt_outside o.now }
{
    let (limit_base, limit_top) = o.v.bounds();
    let (base, top) = o.w.bounds();
    if base < limit_base {
        return Some(Why::BaseBelow {
            base,
            limit: limit_base,
        });
    }
    if limit_top < top {
        return Some(Why::TopAbove {
            top,
            limit: limit_top,
        });
    }
    if top < u128::from(base) {
        return Some(Why::BaseAboveTop { base, top });
    }
    None
}

/// Why the permissions of the word that is rebuilt are not among the source's, if they are not.
fn more_permissions(o: &Operands) -> Option<Why>
    ensures { result ≡ more_permissions o.now }
{
    let (may, has) = (o.v.perm().bits(), o.w.perm().bits());
    if has & may != has {
        return Some(Why::MorePermissions {
            name: o.authority,
            permissions: lacking(o.w, o.v),
            source: o.source,
        });
    }
    None
}

/// Why a word can't be rebuilt whatever bounds a capability can have, if it can't.
fn not_buildable(o: &Operands) -> Option<Why>
    ensures { result ≡ not_buildable o.now }
{
    if let Some(why) = not_open(o) {
        return Some(why);
    }
    if fields(o.w.high()).reserved != 0 {
        return Some(Why::ReservedBits { name: o.authority });
    }
    if let Some(why) = rebuilt_outside(o) {
        return Some(why);
    }
    more_permissions(o)
}

/// Why no capability has the bounds and the address of a word that could be rebuilt otherwise, if
/// none has. The bounds of such a word are always multiples of their length's alignment, so that
/// line is left out.
fn not_encodable(o: &Operands) -> Option<Why>
    requires { not_buildable o.now ≡ None }
    ensures { result ≡ why_lost cap.CBuildCap o.now }
{
    // The clauses of the bounds say that both values are lawful.
    let _source = o.v.bounds();
    let (base, top) = o.w.bounds();
    if o.v.build(o.w).tag() {
        return None;
    }
    Some(outside_region(base, top, o.w.addr()))
}

/// Of CBuildCap.
pub fn build_why(o: &Operands) -> Option<Why>
    ensures { result ≡ why_lost cap.CBuildCap o.now }
{
    match not_buildable(o) {
        Some(why) => Some(why),
        None => not_encodable(o),
    }
}
