//! Laws of rights.

ghost use Rattle.std.specs.Prelude.{◌≡◌, true};
ghost use Rattle.cheri_model.specs.steps.Hart.{HartState};
ghost use Rattle.explore_rights.specs.declared.rights.Rights.{Rights};
ghost use Rattle.explore_rights.specs.Rights.{is_within};
ghost use Rattle.explore_rights.specs.Held.{Holds, held_by, keeps_rights};

/// Rights lie within themselves, and within what those lie in that they lie in.
pub fn rights_nest()
    ensures itself { (a : Rights) → is_within a a ≡ true }
    ensures through { (a b c : Rights) → is_within a b ≡ true → is_within b c ≡ true →
        is_within a c ≡ true }
{}

/// Where a step keeps rights, what the hart held before lies within what it holds after.
pub fn kept_rights_bound_what_was_held()
    ensures { (before after : HartState) (r : Rights) → keeps_rights before after ≡ true →
        Holds (held_by before) r →
        (s : Rights) × Holds (held_by after) s × (is_within r s ≡ true) }
{}
