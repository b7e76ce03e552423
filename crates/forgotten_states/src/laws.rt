//! What a survey says of the machine, which forgets nothing: of all its legal orders of steps,
//! however long they are.

ghost use Rattle.std.specs.Prelude.{◌≡◌, ℕ, Bool, List, [], None, Some, false, slice_get, true};
ghost use Rattle.cheri_model.specs.declared.operation.Op.{Op};
ghost use Rattle.cheri_model.specs.runs.Image.{ImageParts};
ghost use Rattle.cheri_model.specs.runs.Machine.{MachineState, is_running, opening_state};
ghost use Rattle.cheri_model.specs.runs.Replay.{is_legal, replayed_state};
ghost use Rattle.cheri_model.specs.steps.Hart.{HartState};
ghost use Rattle.explore_sights.specs.Sights.{hides};
ghost use Rattle.explore_sights.specs.declared.sights.Sight.{Sight};
ghost use Rattle.explore_turns.specs.Turns.{KeepsPassing, rest_by};
ghost use Rattle.forgotten_runs.specs.ForgottenRuns.{forgotten_state};
ghost use Rattle.forgotten_states.specs.Nodes.{IsFirstPassing};
ghost use Rattle.forgotten_states.specs.Sought.{IsOrderTo};
ghost use Rattle.forgotten_states.specs.Surveys.{IsSurvey, SurveyParts, at, count};
ghost use Rattle.forgotten_turns.specs.ForgottenTurns.{PassesForgotten};
ghost use Rattle.graph_search.specs.Trees.{IsFound};
ghost use Rattle.hart_order.specs.GroupedTurns.{keeps_number};
ghost use Rattle.hart_symmetry.specs.Renaming.{IsRenaming, PassesRenamed};
ghost use Rattle.live_registers.specs.LiveSets.{LiveSets};
ghost use Rattle.schedules.specs.Schedules.{AreAllowed};
ghost use Rattle.states.specs.Kept.{NonePasses};

/// Where a survey has all states, and a test passes just the states that pass when they have
/// forgotten, passes them with harts of one group in any order, and still passes after steps that
/// aren't seen: no state that a legal order leaves passes, if none of the survey does.
pub fn surveys_find_all()
    ensures { (survey : SurveyParts) (passing : MachineState → Bool) → IsSurvey survey →
        survey.complete ≡ true → KeepsPassing (hides survey.sight) passing →
        PassesForgotten survey.live passing → PassesRenamed (keeps_number survey.groups) passing →
        IsFirstPassing (at survey) (count survey) passing None →
        NonePasses survey.image [] passing }
{}

/// The state that the order to a state of a survey leaves passes such a test where this one does.
pub fn orders_to_states_pass()
    ensures { (image : ImageParts) (sight : Sight) (live : LiveSets) (groups : List ℕ)
        (s : MachineState) (passing : MachineState → Bool) (order : List Op) →
        IsOrderTo image sight live groups s order → PassesForgotten live passing →
        PassesRenamed (keeps_number groups) passing → passing s ≡ true →
        passing (replayed_state image order) ≡ true }
{}

/// Where a survey has all states, it has what the state that a legal order leaves forgets to be at
/// its rest, with harts of one group in some order; where no hart runs in it, what it forgets to
/// be, in such an order.
pub fn surveys_have_ends()
    ensures all { (survey : SurveyParts) (order : List Op) → IsSurvey survey →
        survey.complete ≡ true → AreAllowed [] order →
        is_legal survey.image (opening_state survey.image) order ≡ true →
        (r : MachineState) × IsRenaming (keeps_number survey.groups) (forgotten_state survey.live
        (rest_by survey.image [] survey.sight (replayed_state survey.image order))) r
        × IsFound (at survey) r }
    ensures stopped { (survey : SurveyParts) (order : List Op) → IsSurvey survey →
        survey.complete ≡ true → AreAllowed [] order →
        is_legal survey.image (opening_state survey.image) order ≡ true →
        ((hart : ℕ) (h : HartState) →
        slice_get (replayed_state survey.image order).harts hart ≡ Some h →
        is_running h.status ≡ false) →
        (r : MachineState) × IsRenaming (keeps_number survey.groups)
        (forgotten_state survey.live (replayed_state survey.image order)) r
        × IsFound (at survey) r }
{}
