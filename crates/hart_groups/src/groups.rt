//! Which harts are the same, and the group of each.

ghost use Rattle.std.specs.Prelude.{◌≡◌, ◌<◌, ◌≤◌, ◌↔◌, ℕ, IsTrue, length};
ghost use Rattle.hart_groups.specs.HartGroups.{AreGroups, AreSame, HasTwin, IsGroup, any_grouped};

use crate::alike::are_alike;
use cheri_model::{HartImage, Image};
use hart_order::{HartGroups, UNGROUPED};
use named_harts::HartSet;

/// Whether two harts are the same to a question: it names neither, and they hold the same.
fn are_same(harts: &[HartImage], named: &HartSet, one: usize, other: usize) -> bool
    requires few { length harts.now ≤ 8 }
    requires one { one < length harts.now }
    requires other { other < length harts.now }
    ensures { IsTrue result ↔ AreSame harts.now named.now one other }
{
    !named[one] && !named[other] && are_alike(&harts[one], &harts[other])
}

/// The first hart that is the same as a hart, be it that hart; the number of harts where there is
/// none, since the question names the hart.
fn first_same(harts: &[HartImage], named: &HartSet, hart: usize) -> usize
    requires few { length harts.now ≤ 8 }
    requires hart { hart < length harts.now }
    ensures bound { result ≤ length harts.now }
    ensures least { (other : ℕ) → AreSame harts.now named.now hart other → result ≤ other }
    ensures same { result < length harts.now → AreSame harts.now named.now hart result }
{
    for other in 0..harts.len() {
        if are_same(harts, named, hart, other) {
            return other;
        }
    }
    harts.len()
}

/// Whether another hart is the same.
fn has_twin(harts: &[HartImage], named: &HartSet, hart: usize) -> bool
    requires few { length harts.now ≤ 8 }
    requires hart { hart < length harts.now }
    ensures { IsTrue result ↔ HasTwin harts.now named.now hart }
{
    for other in 0..harts.len() {
        if other != hart && are_same(harts, named, hart, other) {
            return true;
        }
    }
    false
}

/// The group of a hart.
fn group_of(harts: &[HartImage], named: &HartSet, hart: usize) -> u8
    requires few { length harts.now ≤ 8 }
    requires hart { hart < length harts.now }
    ensures { IsGroup harts.now named.now hart result }
{
    if has_twin(harts, named, hart) {
        first_same(harts, named, hart) as u8 + 1
    } else {
        0
    }
}

/// The groups of harts that are the same to a question: harts with equal images that it doesn't
/// name. A hart that no other is like is of no group. A group has the number of its first hart and
/// 1 more.
pub fn groups_of(image: &Image, named: &HartSet) -> HartGroups
    ensures { AreGroups image.now.harts named.now result }
{
    // Its clause says that the image is well formed.
    let _granules = image.granules();
    let harts = image.harts();
    let mut groups = UNGROUPED;
    for hart in 0..harts.len() {
        groups[hart] = group_of(harts, named, hart);
    }
    groups
}

/// Whether any hart is of a group.
pub fn any_grouped(groups: &HartGroups) -> bool
    ensures { result ≡ any_grouped groups.now }
{
    groups.iter().any(|group| *group != 0)
}
