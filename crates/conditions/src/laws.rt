//! What it means that a condition hides a step.

ghost use Rattle.std.specs.Prelude.{◌≡◌, ℕ, List, Some, true, slice_get, slice_set};
ghost use Rattle.cheri_model.specs.runs.Machine.{MachineState};
ghost use Rattle.cheri_model.specs.steps.Hart.{HartState};
ghost use Rattle.conditions.specs.Hiding.{hides};
ghost use Rattle.conditions.specs.Holding.{holds};
ghost use Rattle.conditions.specs.declared.parts.Node.{Node};

/// A condition that holds in a state still holds where a step that it hides was taken: where the
/// hart after it stands in the place of the hart before it, whichever place that is.
pub fn hidden_steps_keep_conditions()
    ensures { (nodes : List Node) (before after : HartState) (state : MachineState) (number : ℕ) →
        hides nodes before after ≡ true → slice_get state.harts number ≡ Some before →
        holds state nodes ≡ true →
        holds (record state { harts = slice_set state.harts number after }) nodes ≡ true }
{}
