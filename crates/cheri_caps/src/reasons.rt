//! Why a result has no tag: each instruction's table of reasons, of which the first line that holds
//! is the reason.
#![tactic(auto, using(crate::proofs::ReasonLemmas::table_lines), unfolding(cap_model::specs::results::Reasons::reasons))]

ghost use Rattle.std.specs.Prelude.{◌≡◌, ◌+◌, ◌%◌, ◌^◌, ◌==◌, ◌∷◌, [], not, nat_lt, bit_and};
ghost use Rattle.std.specs.Prelude.{take, true, None};
ghost use Rattle.cap_model.specs.results.Addresses.{address_of, is_exact, is_open};
ghost use Rattle.cap_model.specs.results.CapInstructions.{CBuildCap};
ghost use Rattle.cap_model.specs.results.Readings.{base_of, top_of, permissions_of};
ghost use Rattle.cap_model.specs.results.Reasons.{
  first_reason,
  not_representable,
  open_reasons,
  reasons,
  seal_entry_reasons,
  seal_reasons,
  set_address_reasons,
  set_bounds_exact_reasons,
  set_bounds_reasons,
  unseal_reasons,
  untagged,
};
ghost use Rattle.cap_model.specs.results.Seals.{is_sealable};

use bitflags::Flags;
use cap_bounds::{fields, set_bounds};
use cap_model::{LAST_SEALABLE_TYPE, Reason, SENTRY_TYPE};
use cap_ops::Cap;
use cheri_model::permission::{EXECUTE, SEAL, UNSEAL};

/// The one line of CClearTag and of CSetHigh, which always holds.
#[inline(always)]
pub(crate) fn always(reason: Reason) -> Option<Reason>
    ensures { result ≡ first_reason ((true, reason) ∷ []) }
{
    Some(reason)
}

/// Of CMove, and of the unsealing that a jump does.
#[inline(always)]
pub(crate) fn moved_reason(v: Cap) -> Option<Reason>
    ensures { result ≡ first_reason (untagged v ∷ []) }
{
    if !v.tag() {
        return Some(Reason::SourceUntagged);
    }
    None
}

/// Of CAndPerm and CSetFlags.
#[inline(always)]
pub(crate) fn open_reason(v: Cap) -> Option<Reason>
    ensures { result ≡ first_reason (open_reasons v) }
{
    if !v.tag() {
        return Some(Reason::SourceUntagged);
    }
    if v.sealed() {
        return Some(Reason::SourceSealed);
    }
    None
}

/// Why an open value can't have another address, if it can't.
#[inline(always)]
fn address_line(v: Cap, addr: u64) -> Option<Reason>
    requires { is_open v ≡ true }
    ensures { result ≡ first_reason (not_representable v addr ∷ []) }
{
    if v.set_addr(addr).tag() {
        return None;
    }
    Some(Reason::NotRepresentable)
}

/// Of CSetAddr.
#[inline(always)]
pub(crate) fn address_reason(v: Cap, addr: u64) -> Option<Reason>
    ensures { result ≡ first_reason (set_address_reasons v addr) }
{
    if !v.tag() {
        return Some(Reason::SourceUntagged);
    }
    if v.sealed() {
        return Some(Reason::SourceSealed);
    }
    address_line(v, addr)
}

/// Of CIncOffset.
#[inline(always)]
pub(crate) fn offset_reason(v: Cap, offset: u64) -> Option<Reason>
    ensures { result ≡ first_reason (set_address_reasons v ((address_of v + offset) % 2 ^ 64)) }
{
    address_reason(v, v.addr().wrapping_add(offset))
}

/// Of CSetBounds.
#[inline(always)]
pub(crate) fn bounds_reason(v: Cap, len: u64) -> Option<Reason>
    ensures { result ≡ first_reason (set_bounds_reasons v len) }
{
    let (base, top) = v.bounds();
    let addr = v.addr();
    if !v.tag() {
        return Some(Reason::SourceUntagged);
    }
    if v.sealed() {
        return Some(Reason::SourceSealed);
    }
    if addr < base {
        return Some(Reason::BaseBelow);
    }
    if top < u128::from(addr) + u128::from(len) {
        return Some(Reason::EndAbove);
    }
    None
}

/// Whether the rounding of a range is another one.
#[inline(always)]
fn is_rounded(base: u64, len: u64) -> bool
    ensures { result ≡ not (is_exact base len) }
{
    !set_bounds(base, u128::from(len)).exact
}

/// Of CSetBoundsExact.
#[inline(always)]
pub(crate) fn exact_bounds_reason(v: Cap, len: u64) -> Option<Reason>
    ensures { result ≡ first_reason (set_bounds_exact_reasons v len) }
{
    let (base, top) = v.bounds();
    let addr = v.addr();
    if !v.tag() {
        return Some(Reason::SourceUntagged);
    }
    if v.sealed() {
        return Some(Reason::SourceSealed);
    }
    if addr < base {
        return Some(Reason::BaseBelow);
    }
    if top < u128::from(addr) + u128::from(len) {
        return Some(Reason::EndAbove);
    }
    if is_rounded(addr, len) {
        return Some(Reason::Rounded);
    }
    None
}

/// Of CSealEntry.
#[inline(always)]
pub(crate) fn seal_entry_reason(v: Cap) -> Option<Reason>
    ensures { result ≡ first_reason (seal_entry_reasons v) }
{
    if !v.tag() {
        return Some(Reason::SourceUntagged);
    }
    if v.sealed() {
        return Some(Reason::SourceSealed);
    }
    if !v.has_permission(EXECUTE) {
        return Some(Reason::NoExecute);
    }
    None
}

/// Whether nothing can be sealed with an object type.
#[inline(always)]
fn is_unsealable(otype: u64) -> bool
    ensures { result ≡ not (is_sealable otype) }
{
    otype > u64::from(LAST_SEALABLE_TYPE)
}

/// Of CSeal.
#[inline(always)]
pub(crate) fn seal_reason(v: Cap, authority: Cap) -> Option<Reason>
    ensures { result ≡ first_reason (seal_reasons v authority) }
{
    if !v.tag() {
        return Some(Reason::SourceUntagged);
    }
    if v.sealed() {
        return Some(Reason::SourceSealed);
    }
    if !authority.tag() {
        return Some(Reason::AuthorityUntagged);
    }
    if authority.sealed() {
        return Some(Reason::AuthoritySealed);
    }
    if !authority.has_permission(SEAL) {
        return Some(Reason::NoSeal);
    }
    if !authority.holds(authority.addr(), 1) {
        return Some(Reason::TypeOutside);
    }
    if is_unsealable(authority.addr()) {
        return Some(Reason::TypeNotSealable);
    }
    None
}

/// Of CUnseal.
#[inline(always)]
pub(crate) fn unseal_reason(v: Cap, authority: Cap) -> Option<Reason>
    ensures { result ≡ first_reason (unseal_reasons v authority) }
{
    let otype = v.object_type().number();
    if !v.tag() {
        return Some(Reason::SourceUntagged);
    }
    if !v.sealed() {
        return Some(Reason::SourceUnsealed);
    }
    if otype == SENTRY_TYPE {
        return Some(Reason::SourceSentry);
    }
    if !authority.tag() {
        return Some(Reason::AuthorityUntagged);
    }
    if authority.sealed() {
        return Some(Reason::AuthoritySealed);
    }
    if !authority.has_permission(UNSEAL) {
        return Some(Reason::NoUnseal);
    }
    if !authority.holds(authority.addr(), 1) {
        return Some(Reason::TypeOutside);
    }
    if authority.addr() != u64::from(otype) {
        return Some(Reason::TypeDiffers);
    }
    None
}

/// Whether a word has a permission that another lacks.
#[inline(always)]
fn has_more_permissions(w: Cap, v: Cap) -> bool
    ensures { result
        ≡ not (bit_and (permissions_of w) (permissions_of v) == permissions_of w) }
{
    let (has, may) = (w.perm().bits(), v.perm().bits());
    has & may != has
}

/// Why a word `w` with these bounds can't be rebuilt under `v` whatever bounds a capability can
/// have, if it can't.
#[inline(always)]
fn contents_reason(v: Cap, w: Cap, base: u64, top: u128) -> Option<Reason>
    requires base { base ≡ base_of w }
    requires top { top ≡ top_of w }
    ensures { result ≡ first_reason (take 7 (reasons CBuildCap v w)) }
{
    let (least, limit) = v.bounds();
    if !v.tag() {
        return Some(Reason::SourceUntagged);
    }
    if v.sealed() {
        return Some(Reason::SourceSealed);
    }
    if fields(w.high()).reserved != 0 {
        return Some(Reason::ReservedBits);
    }
    if base < least {
        return Some(Reason::BaseBelow);
    }
    if limit < top {
        return Some(Reason::TopAbove);
    }
    if top < u128::from(base) {
        return Some(Reason::BaseAboveTop);
    }
    if has_more_permissions(w, v) {
        return Some(Reason::MorePermissions);
    }
    None
}

/// Why no capability has the bounds and the address of a word that could be rebuilt otherwise, if
/// none has. The bounds of such a word are always multiples of their length's alignment, so that
/// line is left out.
#[inline(always)]
fn encoding_reason(v: Cap, w: Cap, base: u64, top: u128) -> Option<Reason>
    requires base { base ≡ base_of w }
    requires top { top ≡ top_of w }
    requires passed { first_reason (take 7 (reasons CBuildCap v w)) ≡ None }
    ensures { result ≡ first_reason (reasons CBuildCap v w) }
{
    // Its clause says that both values are lawful.
    let _tags = (v.tag(), w.tag());
    match Cap::make(base, top - u128::from(base), w.addr(), w.perm()) {
        Ok(_) => None,
        Err(_) => Some(Reason::NotRepresentable),
    }
}

/// Of CBuildCap, of a source `v` and the word `w` that is rebuilt under it.
#[inline(always)]
pub(crate) fn build_reason(v: Cap, w: Cap) -> Option<Reason>
    ensures { result ≡ first_reason (reasons CBuildCap v w) }
{
    let (base, top) = w.bounds();
    match contents_reason(v, w, base, top) {
        Some(reason) => Some(reason),
        None => encoding_reason(v, w, base, top),
    }
}
