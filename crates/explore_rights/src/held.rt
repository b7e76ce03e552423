//! What a hart holds, and whether a step keeps it.
#![tactic(auto, unfolding(crate::proofs::Unfold::held))]

ghost use Rattle.std.specs.Prelude.{◌≡◌};
ghost use Rattle.explore_rights.specs.Held.{held_by, is_kept, keeps_rights};

use crate::rights::Rights;
use cap_ops::Cap;
use cheri_model::Reg;
use hart::Hart;

/// What a hart holds: PCC, and then c0 to c31.
fn held_by(hart: &Hart) -> [Cap; 33]
    ensures { result ≡ held_by hart.now }
{
    let mut held = [hart.pcc(); 33];
    for number in 0..32 {
        held[usize::from(number) + 1] = hart.register(Reg::new(number));
    }
    held
}

/// Whether a value is untagged, or its rights lie within those of a tagged one of the others.
fn is_kept(others: &[Cap], value: Cap) -> bool
    ensures { result ≡ is_kept others.now value }
{
    if !value.tag() {
        return true;
    }
    let rights = Rights::of(value);
    for other in others {
        if other.tag() && rights.is_within(Rights::of(*other)) {
            return true;
        }
    }
    false
}

/// Whether each right of a hart lies within one that it holds after a step: bounds and permissions
/// of tagged values, sealed or not, in PCC and registers.
pub fn keeps_rights(before: &Hart, after: &Hart) -> bool
    ensures { result ≡ keeps_rights before.now after.now }
{
    let others = held_by(after);
    for value in &held_by(before) {
        if !is_kept(&others, *value) {
            return false;
        }
    }
    true
}
