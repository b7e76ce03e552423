//! Sets of harts.

ghost use Rattle.std.specs.Prelude.{◌==◌, ◌||◌, false};
ghost use Rattle.named_harts.specs.NamedHarts.{IsSetOf, has};

use cheri_model::MAX_HARTS;

/// Says of each hart that a machine can have, by its number, whether it is in the set.
pub type HartSet = [bool; 8];

/// The set of no hart.
pub fn nobody() -> HartSet
    ensures { IsSetOf (λ hart. false) result }
{
    [false; 8]
}

/// The set of one hart, or of none where no machine has a hart of this number.
pub(crate) fn only(hart: u8) -> HartSet
    ensures { IsSetOf (λ other. other == hart) result }
{
    let mut set = [false; 8];
    let number = usize::from(hart);
    if number < MAX_HARTS {
        set[number] = true;
    }
    set
}

/// The harts of both sets.
pub fn union(one: &HartSet, other: &HartSet) -> HartSet
    ensures { IsSetOf (λ hart. has one.now hart || has other.now hart) result }
{
    let mut all = *one;
    for hart in 0..MAX_HARTS {
        if other[hart] {
            all[hart] = true;
        }
    }
    all
}
