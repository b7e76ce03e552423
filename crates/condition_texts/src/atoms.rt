//! Atoms: what a condition says of a state, and the words that write them.
#![tactic(auto, unfolding(crate::proofs::Unfold::atoms))]

ghost use Rattle.std.specs.Prelude.{◌≡◌};
ghost use Rattle.condition_texts.specs.Atoms.{
  comparison_of,
  status_of,
  address_in_word,
  permissions_in,
};

use crate::places::number_in;
use cheri_model::Perms;
use cheri_model::table::found_at;
use conditions::{Comparison, StatusTest};
use grammar::permissions::permissions_of;

const COMPARISONS: &[(&str, Comparison)] = &[
    ("=", Comparison::Equal),
    ("!=", Comparison::NotEqual),
    ("<", Comparison::Less),
    ("<=", Comparison::AtMost),
    (">", Comparison::Greater),
    (">=", Comparison::AtLeast),
];

const STATUSES: &[(&str, StatusTest)] = &[
    ("running", StatusTest::Running),
    ("halted", StatusTest::Halted),
    ("trapped", StatusTest::Trapped),
    ("trapped:1", StatusTest::TrappedBy(1)),
    ("trapped:2", StatusTest::TrappedBy(2)),
    ("trapped:3", StatusTest::TrappedBy(3)),
    ("trapped:4", StatusTest::TrappedBy(4)),
    ("trapped:5", StatusTest::TrappedBy(5)),
    ("trapped:6", StatusTest::TrappedBy(6)),
    ("trapped:7", StatusTest::TrappedBy(7)),
    ("trapped:8", StatusTest::TrappedBy(8)),
    ("trapped:9", StatusTest::TrappedBy(9)),
    ("trapped:10", StatusTest::TrappedBy(10)),
    ("trapped:11", StatusTest::TrappedBy(11)),
    ("trapped:12", StatusTest::TrappedBy(12)),
    ("trapped:13", StatusTest::TrappedBy(13)),
    ("trapped:Tag", StatusTest::TrappedBy(1)),
    ("trapped:Seal", StatusTest::TrappedBy(2)),
    ("trapped:Execute", StatusTest::TrappedBy(3)),
    ("trapped:Load", StatusTest::TrappedBy(4)),
    ("trapped:Store", StatusTest::TrappedBy(5)),
    ("trapped:StoreCap", StatusTest::TrappedBy(6)),
    ("trapped:StoreLocal", StatusTest::TrappedBy(7)),
    ("trapped:Length", StatusTest::TrappedBy(8)),
    ("trapped:Align", StatusTest::TrappedBy(9)),
    ("trapped:Place", StatusTest::TrappedBy(10)),
    ("trapped:Fetch", StatusTest::TrappedBy(11)),
    ("trapped:Type", StatusTest::TrappedBy(12)),
    ("trapped:CInvoke", StatusTest::TrappedBy(13)),
];

/// The comparison that a word names.
pub(crate) fn comparison_of(word: &[u8]) -> Option<Comparison>
    ensures { result ≡ comparison_of word.now }
{
    found_at(COMPARISONS, word)
}

/// The status that a word names.
pub(crate) fn status_of(word: &[u8]) -> Option<StatusTest>
    ensures { result ≡ status_of word.now }
{
    found_at(STATUSES, word)
}

/// The address that a word writes, below 2^64.
pub(crate) fn address_in_word(word: &[u8]) -> Option<u64>
    ensures { result ≡ address_in_word word.now }
{
    let addr = number_in(word)?;
    if addr <= u128::from(u64::MAX) {
        Some(addr as u64)
    } else {
        None
    }
}

/// The permission set that a word writes.
pub(crate) fn permissions_in(word: &[u8]) -> Option<Perms>
    ensures { result ≡ permissions_in word.now }
{
    match permissions_of(word) {
        Ok(perms) => Some(perms),
        Err(_) => None,
    }
}
