//! What is not seen changes no answer.

ghost use Rattle.std.specs.Prelude.{◌≡◌, ℕ, List, Some, true, slice_get, slice_set};
ghost use Rattle.cheri_model.specs.runs.Machine.{MachineState};
ghost use Rattle.cheri_model.specs.steps.Hart.{HartState};
ghost use Rattle.explore_sights.specs.Sights.{hides};
ghost use Rattle.explore_sights.specs.Watches.{is_met};
ghost use Rattle.explore_sights.specs.declared.sights.Sight.{Sight};
ghost use Rattle.explore_sights.specs.declared.watches.Watch.{Watch};

/// A state that some question asks for is still one after a step that no question sees: where the
/// hart after it stands in the place of the hart before it, whichever place that is.
pub fn hidden_steps_keep_watches()
    ensures { (watches : List Watch) (number : ℕ) (watch : Watch) (before after : HartState)
        (state : MachineState) (hart : ℕ) →
        hides (Sight.Watches watches) before after ≡ true →
        slice_get watches number ≡ Some watch → slice_get state.harts hart ≡ Some before →
        is_met watch state ≡ true →
        is_met watch (record state { harts = slice_set state.harts hart after }) ≡ true }
{}
