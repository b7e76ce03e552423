//! Why turns keep the answers of steps. The laws hold for every test of what a question sees, and
//! for every limit of quiet steps.

ghost use Rattle.std.specs.Prelude.{◌≡◌, ℕ, Bool, List, Some, slice_get, false, true, length};
ghost use Rattle.cap_model.specs.values.CapValue.{CapValue};
ghost use Rattle.cheri_model.specs.declared.instr.Instr.{Instr};
ghost use Rattle.cheri_model.specs.runs.Image.{ImageParts};
ghost use Rattle.cheri_model.specs.runs.Machine.{MachineState, is_running, opening_state};
ghost use Rattle.cheri_model.specs.runs.Replay.{is_legal, replayed_state};
ghost use Rattle.cheri_model.specs.declared.operation.Op.{Op};
ghost use Rattle.cheri_model.specs.steps.Hart.{HartState};
ghost use Rattle.cheri_model.specs.steps.HartStep.{hart_step};
ghost use Rattle.explore_turns.specs.QuietSteps.{asks_memory, own_step, rest};
ghost use Rattle.explore_sights.specs.Sights.{hides};
ghost use Rattle.explore_turns.specs.Orders.{order_of_turns};
ghost use Rattle.explore_turns.specs.Turns.{
  KeepsPassing,
  has_harts_of,
  rest_by,
  rest_of,
  start_by,
  turn_by,
};
ghost use Rattle.graph_search.specs.Walks.{IsReachable, IsWalk};
ghost use Rattle.graph_merging.specs.Merging.{IsMerging};
ghost use Rattle.schedules.specs.declared.ranges.SweepRange.{SweepRange};
ghost use Rattle.schedules.specs.Schedules.{AreAllowed, AreLabelsOf, next};

use explore_sights::Sight;

/// A step that asks for no access does the same in every memory, and touches none.
pub fn quiet_steps_touch_no_memory()
    ensures hart { (program : List Instr) (h : HartState) (m : List CapValue) →
        asks_memory program h ≡ false → (hart_step program h m).hart ≡ own_step program h }
    ensures memory { (program : List Instr) (h : HartState) (m : List CapValue) →
        asks_memory program h ≡ false → (hart_step program h m).memory ≡ m }
{}

/// A hart at its rest rests there, and one that doesn't run does.
pub fn resting_harts_stay()
    ensures twice { (program : List Instr) (sweeps : List SweepRange)
        (hides : HartState → HartState → Bool) (most : ℕ) (h : HartState) →
        rest program sweeps hides most (rest program sweeps hides most h)
        ≡ rest program sweeps hides most h }
    ensures stopped { (program : List Instr) (sweeps : List SweepRange)
        (hides : HartState → HartState → Bool) (most : ℕ) (h : HartState) →
        is_running h.status ≡ false → rest program sweeps hides most h ≡ h }
{}

/// The states with each hart at its rest stand for all states of an image's machine. So the laws of
/// `graph_merging` hold of them: what turns reach is reached by steps; whatever steps reach, its
/// rest is reached by turns; and the loops of the one are those of the other, fair or not.
pub fn turns_merge_steps()
    ensures { (image : ImageParts) (sweeps : List SweepRange)
        (hides : HartState → HartState → Bool) (most : ℕ) →
        (to_go : MachineState → ℕ → ℕ) × IsMerging (next image sweeps) (length image.harts)
        (has_harts_of image) (rest_of image sweeps hides most) to_go }
{}

/// What turns lead to, by what a question sees: of each state that is reached by steps and sweeps,
/// the one with each hart at its rest is reached by turns.
pub fn rests_are_reached_by_turns()
    ensures complete { (image : ImageParts) (sweeps : List SweepRange) (sight : Sight)
        (s : MachineState) → IsReachable (next image sweeps) (opening_state image) s →
        IsReachable (turn_by image sweeps sight) (start_by image sweeps sight)
        (rest_by image sweeps sight s) }
    ensures stopped { (image : ImageParts) (sweeps : List SweepRange) (sight : Sight)
        (s : MachineState) → ((l : ℕ) (h : HartState) → slice_get s.harts l ≡ Some h →
        is_running h.status ≡ false) → rest_by image sweeps sight s ≡ s }
{}

/// The order of turns, with each of their steps, is legal and leads where the turns lead.
pub fn orders_of_turns_lead()
    ensures allowed { (image : ImageParts) (sweeps : List SweepRange) (sight : Sight)
        (labels : List ℕ) (ops : List Op) (t : MachineState) →
        AreLabelsOf image sweeps labels ops →
        IsWalk (turn_by image sweeps sight) (start_by image sweeps sight) labels t →
        AreAllowed sweeps (order_of_turns image sweeps sight ops) }
    ensures legal { (image : ImageParts) (sweeps : List SweepRange) (sight : Sight)
        (labels : List ℕ) (ops : List Op) (t : MachineState) →
        AreLabelsOf image sweeps labels ops →
        IsWalk (turn_by image sweeps sight) (start_by image sweeps sight) labels t →
        is_legal image (opening_state image) (order_of_turns image sweeps sight ops) ≡ true }
    ensures leads { (image : ImageParts) (sweeps : List SweepRange) (sight : Sight)
        (labels : List ℕ) (ops : List Op) (t : MachineState) →
        AreLabelsOf image sweeps labels ops →
        IsWalk (turn_by image sweeps sight) (start_by image sweeps sight) labels t →
        replayed_state image (order_of_turns image sweeps sight ops) ≡ t }
{}

/// A state that passes a test passes it with each hart at its rest, where the test still passes
/// after steps that aren't seen.
pub fn passing_states_rest()
    ensures { (image : ImageParts) (sweeps : List SweepRange) (sight : Sight)
        (passing : MachineState → Bool) → KeepsPassing (hides sight) passing →
        (s : MachineState) → passing s ≡ true → passing (rest_by image sweeps sight s) ≡ true }
{}

/// Where every step is seen, each state rests, and turns are steps.
pub fn seen_steps_are_turns()
    ensures states { (image : ImageParts) (sweeps : List SweepRange) (s : MachineState) →
        rest_by image sweeps Sight.EveryStep s ≡ s }
    ensures turns { (image : ImageParts) (sweeps : List SweepRange) (s : MachineState) (l : ℕ) →
        turn_by image sweeps Sight.EveryStep s l ≡ next image sweeps s l }
{}
