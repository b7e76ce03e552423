//! The permission sets of a listing.
#![tactic(auto, using(crate::proofs::Rulesets::no_name), unfolding(crate::proofs::Unfold::named))]

ghost use Rattle.std.specs.Prelude.{◌≡◌, Some, option_map, fold};
ghost use Rattle.grammar.specs.Permissions.{
  permission_named,
  set_of,
  with_named,
  joined_names,
  permissions_of,
};

use crate::fault::ListingFaultKind;
use bitflags::Flags;
use cheri_model::Perms;
use std::str;

/// The permission of this name.
fn permission_named(name: &[u8]) -> Option<Perms>
    ensures { option_map (λ perms. perms.0) result ≡ permission_named name.now }
{
    match str::from_utf8(name) {
        Ok(name) => Perms::from_name(name),
        Err(_) => None,
    }
}

/// A set and one more permission, by its name.
fn with_named(perms: Option<Perms>, name: &[u8]) -> Option<Perms>
    ensures { result ≡ with_named perms name.now }
{
    Some(perms?.union(permission_named(name)?))
}

/// The permissions of names that are joined by `+`.
fn joined_permissions(token: &[u8]) -> Option<Perms>
    ensures { result ≡ fold with_named (Some (set_of 0)) (joined_names token.now) }
{
    token
        .split(|byte| *byte == b'+')
        .fold(Some(Perms::empty()), |perms, name| {
            with_named(perms, name)
        })
}

/// The permission set that a token writes: `all`, `none`, or names joined by `+`. Fails with
/// `Operand`.
pub fn permissions_of(token: &[u8]) -> Result<Perms, ListingFaultKind>
    ensures { result ≡ permissions_of token.now }
{
    if token == b"all".as_slice() {
        return Ok(Perms::all());
    }
    if token == b"none".as_slice() {
        return Ok(Perms::empty());
    }
    joined_permissions(token).ok_or(ListingFaultKind::Operand)
}
