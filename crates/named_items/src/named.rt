//! The harts of items, one item after another.
#![tactic(auto, unfolding(crate::proofs::Unfold::named))]

ghost use Rattle.std.specs.Prelude.{◌≡◌, ◌||◌, ◌==◌, false};
ghost use Rattle.hart_symmetry.specs.Named.{holder_names};
ghost use Rattle.named_harts.specs.NamedHarts.{IsSetOf, has};
ghost use Rattle.named_items.specs.NamedItems.{item_names, items_name};

use cheri_model::MAX_HARTS;
use conditions::{Holder, Place, Shown};
use named_harts::{HartSet, nobody};

/// A set with one hart more, or the same where no machine has a hart of this number.
fn with_hart(set: &HartSet, hart: u8) -> HartSet
    ensures { IsSetOf (λ other. has set.now other || other == hart) result }
{
    let mut more = *set;
    let number = usize::from(hart);
    if number < MAX_HARTS {
        more[number] = true;
    }
    more
}

/// A set with the hart that a holder is of.
fn with_holder(set: &HartSet, holder: Holder) -> HartSet
    ensures { IsSetOf (λ hart. has set.now hart || holder_names holder hart) result }
{
    match holder {
        Holder::Register(hart, _) | Holder::Pcc(hart) => with_hart(set, hart),
        Holder::Granule(_) => *set,
    }
}

/// A set with the hart that an item names.
fn with_item(set: &HartSet, item: Shown) -> HartSet
    ensures { IsSetOf (λ hart. has set.now hart || item_names item hart) result }
{
    match item {
        Shown::Number(Place::Value(holder, _)) => with_holder(set, holder),
        Shown::Number(Place::Data(..)) => *set,
        Shown::Status(hart) => with_hart(set, hart),
    }
}

/// The harts that items name by their numbers: at most 8, as many as a machine has.
pub fn named_items(items: &[Shown]) -> HartSet
    ensures { IsSetOf (items_name items.now) result }
{
    let mut named = nobody();
    for item in items.iter() {
        named = with_item(&named, *item);
    }
    named
}
