//! Why the other harts may change places.

ghost use Rattle.std.specs.Prelude.{ℕ, All, Bool, List};
ghost use Rattle.asked_registers.specs.Asked.{ShowsSame};
ghost use Rattle.cheri_model.specs.runs.Machine.{MachineState};
ghost use Rattle.conditions.specs.declared.parts.Shown.{Shown};
ghost use Rattle.hart_symmetry.specs.Named.{NamedStay};
ghost use Rattle.hart_symmetry.specs.Renaming.{IsRenaming};
ghost use Rattle.named_items.specs.NamedItems.{items_name};

/// Items show the same of two states of which one has the harts of the other in another order,
/// where each hart that they name keeps its number.
pub fn items_treat_harts_alike()
    ensures { (stays : ℕ → Bool) (items : List Shown) → NamedStay stays (items_name items) →
        (one other : MachineState) → IsRenaming stays one other →
        All (ShowsSame other one) items }
{}
