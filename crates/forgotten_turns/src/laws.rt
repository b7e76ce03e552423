//! Why a search by turns may forget, in each state that it meets, the registers that don't matter.
//! The laws hold of every image, all sets that are right for its program and every question that
//! sees nothing that is forgotten.

ghost use Rattle.std.specs.Prelude.{◌≡◌, ℕ, Bool, List, [], Some, option_map, slice_get, true};
ghost use Rattle.asked_registers.specs.Asked.{HasAsked, condition_asks};
ghost use Rattle.cheri_model.specs.declared.instr.Instr.{Instr};
ghost use Rattle.cheri_model.specs.declared.operation.Op.{Op};
ghost use Rattle.cheri_model.specs.runs.Image.{ImageParts};
ghost use Rattle.cheri_model.specs.runs.Machine.{MachineState, opening_state};
ghost use Rattle.cheri_model.specs.runs.Replay.{is_legal, replayed_state};
ghost use Rattle.cheri_model.specs.steps.Hart.{HartState};
ghost use Rattle.conditions.specs.declared.parts.Node.{Node};
ghost use Rattle.explore_sights.specs.Sights.{hides};
ghost use Rattle.explore_sights.specs.declared.sights.Sight.{Sight};
ghost use Rattle.explore_sights.specs.declared.watches.Watch.{Watch};
ghost use Rattle.explore_turns.specs.Orders.{order_of_turns};
ghost use Rattle.explore_turns.specs.QuietSteps.{is_quiet, own_step, rest, steps_to_rest};
ghost use Rattle.explore_turns.specs.Turns.{KeepsPassing, rest_by, start_by, turn_by};
ghost use Rattle.forgotten_runs.specs.ForgottenRuns.{forgotten_state};
ghost use Rattle.forgotten_turns.specs.ForgottenTurns.{
  HidesForgotten,
  PassesForgotten,
  forgotten_start,
  forgotten_turn,
};
ghost use Rattle.graph_search.specs.Walks.{IsReachable, IsWalk, after};
ghost use Rattle.live_registers.specs.LiveSets.{IsRight, LiveSets, forgotten_hart};
ghost use Rattle.schedules.specs.Schedules.{AreAllowed, AreLabelsOf};

/// A hart that has forgotten is quiet where the hart is, and its quiet step leads to what the hart
/// after its own quiet step forgets to be.
pub fn quiet_steps_forget()
    ensures quiet { (program : List Instr) (live : LiveSets)
        (hides : HartState → HartState → Bool) (h : HartState) → IsRight program live →
        HidesForgotten live hides →
        is_quiet program [] hides (forgotten_hart live h) ≡ is_quiet program [] hides h }
    ensures leads { (program : List Instr) (live : LiveSets)
        (hides : HartState → HartState → Bool) (h : HartState) → IsRight program live →
        is_quiet program [] hides h ≡ true →
        forgotten_hart live (own_step program (forgotten_hart live h))
        ≡ forgotten_hart live (own_step program h) }
{}

/// A hart that has forgotten has as many quiet steps to its rest as the hart. There it has forgotten
/// to be what the hart at its rest forgets to be, and this is at its rest.
pub fn rests_forget()
    ensures steps { (program : List Instr) (live : LiveSets)
        (hides : HartState → HartState → Bool) (most : ℕ) (h : HartState) → IsRight program live →
        HidesForgotten live hides → steps_to_rest program [] hides most (forgotten_hart live h)
        ≡ steps_to_rest program [] hides most h }
    ensures same { (program : List Instr) (live : LiveSets)
        (hides : HartState → HartState → Bool) (most : ℕ) (h : HartState) → IsRight program live →
        HidesForgotten live hides →
        forgotten_hart live (rest program [] hides most (forgotten_hart live h))
        ≡ forgotten_hart live (rest program [] hides most h) }
    ensures rests { (program : List Instr) (live : LiveSets)
        (hides : HartState → HartState → Bool) (most : ℕ) (h : HartState) → IsRight program live →
        HidesForgotten live hides →
        rest program [] hides most (forgotten_hart live (rest program [] hides most h))
        ≡ forgotten_hart live (rest program [] hides most h) }
{}

/// A turn of a state that has forgotten leads to what the state after the turn forgets to be, and
/// so does a walk by turns after each of which harts forget. So what such walks lead to is what the
/// states forget to be that turns lead to.
pub fn turns_forget()
    ensures turn { (image : ImageParts) (sight : Sight) (live : LiveSets) (s : MachineState)
        (label : ℕ) → IsRight image.program live → HidesForgotten live (hides sight) →
        forgotten_turn image sight live (forgotten_state live s) label
        ≡ forgotten_turn image sight live s label }
    ensures walks { (image : ImageParts) (sight : Sight) (live : LiveSets) (s : MachineState)
        (labels : List ℕ) → IsRight image.program live → HidesForgotten live (hides sight) →
        after (forgotten_turn image sight live) (forgotten_state live s) labels
        ≡ option_map (forgotten_state live) (after (turn_by image [] sight) s labels) }
    ensures reached { (image : ImageParts) (sight : Sight) (live : LiveSets) (s : MachineState) →
        IsRight image.program live → HidesForgotten live (hides sight) →
        IsReachable (turn_by image [] sight) (start_by image [] sight) s →
        IsReachable (forgotten_turn image sight live) (forgotten_start image sight live)
        (forgotten_state live s) }
    ensures reaches { (image : ImageParts) (sight : Sight) (live : LiveSets) (r : MachineState) →
        IsRight image.program live → HidesForgotten live (hides sight) →
        IsReachable (forgotten_turn image sight live) (forgotten_start image sight live) r →
        (s : MachineState) × IsReachable (turn_by image [] sight) (start_by image [] sight) s
        × (forgotten_state live s ≡ r) }
{}

/// The order of turns after each of which harts forget, with each of their steps, is legal where no
/// hart forgets, and leads to a state that forgets to be the one to which these turns lead.
pub fn orders_of_forgotten_turns_lead()
    ensures allowed { (image : ImageParts) (sight : Sight) (live : LiveSets) (labels : List ℕ)
        (ops : List Op) (r : MachineState) → IsRight image.program live →
        HidesForgotten live (hides sight) → AreLabelsOf image [] labels ops →
        IsWalk (forgotten_turn image sight live) (forgotten_start image sight live) labels r →
        AreAllowed [] (order_of_turns image [] sight ops) }
    ensures legal { (image : ImageParts) (sight : Sight) (live : LiveSets) (labels : List ℕ)
        (ops : List Op) (r : MachineState) → IsRight image.program live →
        HidesForgotten live (hides sight) → AreLabelsOf image [] labels ops →
        IsWalk (forgotten_turn image sight live) (forgotten_start image sight live) labels r →
        is_legal image (opening_state image) (order_of_turns image [] sight ops) ≡ true }
    ensures leads { (image : ImageParts) (sight : Sight) (live : LiveSets) (labels : List ℕ)
        (ops : List Op) (r : MachineState) → IsRight image.program live →
        HidesForgotten live (hides sight) → AreLabelsOf image [] labels ops →
        IsWalk (forgotten_turn image sight live) (forgotten_start image sight live) labels r →
        forgotten_state live (replayed_state image (order_of_turns image [] sight ops)) ≡ r }
{}

/// Where a test passes just the states that pass when they have forgotten, and still passes after
/// steps that aren't seen: of a state that any legal order of steps leads to and that passes, what
/// it forgets to be at its rest is reached by turns after each of which harts forget, and passes.
pub fn passing_states_are_reached()
    ensures reached { (image : ImageParts) (sight : Sight) (live : LiveSets) (order : List Op) →
        IsRight image.program live → HidesForgotten live (hides sight) → AreAllowed [] order →
        is_legal image (opening_state image) order ≡ true →
        IsReachable (forgotten_turn image sight live) (forgotten_start image sight live)
        (forgotten_state live (rest_by image [] sight (replayed_state image order))) }
    ensures passes { (image : ImageParts) (sight : Sight) (live : LiveSets)
        (passing : MachineState → Bool) → KeepsPassing (hides sight) passing →
        PassesForgotten live passing → (s : MachineState) → passing s ≡ true →
        passing (forgotten_state live (rest_by image [] sight s)) ≡ true }
{}

/// What a condition sees of a step, or several do, is nothing that a hart forgets, where the
/// registers that they ask for are kept.
pub fn sights_forget()
    ensures condition { (program : List Instr) (live : LiveSets) (nodes : List Node) →
        IsRight program live → HasAsked live.asked (condition_asks nodes) →
        HidesForgotten live (hides (Sight.Condition nodes)) }
    ensures watches { (program : List Instr) (live : LiveSets) (watches : List Watch) →
        IsRight program live → ((number : ℕ) (watch : Watch) →
        slice_get watches number ≡ Some watch →
        HasAsked live.asked (condition_asks watch.condition)) →
        HidesForgotten live (hides (Sight.Watches watches)) }
{}
