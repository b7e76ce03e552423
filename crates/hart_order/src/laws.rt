//! Why harts in the order of what they hold are a machine's harts under other numbers, and what a
//! search may rely on that keeps states with harts of one group in order.

ghost use Rattle.std.specs.Prelude.{◌≡◌, ℕ, Bool, List, [], true};
ghost use Rattle.cheri_model.specs.declared.operation.Op.{Op};
ghost use Rattle.cheri_model.specs.runs.Image.{ImageParts};
ghost use Rattle.cheri_model.specs.runs.Machine.{MachineState, opening_state};
ghost use Rattle.cheri_model.specs.runs.Replay.{is_legal, replayed_state};
ghost use Rattle.explore_sights.specs.Sights.{hides};
ghost use Rattle.explore_sights.specs.declared.sights.Sight.{Sight};
ghost use Rattle.explore_turns.specs.Turns.{rest_by};
ghost use Rattle.forgotten_runs.specs.ForgottenRuns.{forgotten_state};
ghost use Rattle.forgotten_turns.specs.ForgottenTurns.{
  HidesForgotten,
  forgotten_start,
  forgotten_turn,
};
ghost use Rattle.graph_search.specs.Walks.{IsReachable, IsWalk};
ghost use Rattle.hart_order.specs.Arrangements.{
  IsUngrouped,
  OthersStay,
  arranged_state,
  place_in,
};
ghost use Rattle.hart_order.specs.GroupedTurns.{
  grouped_start,
  grouped_turn,
  keeps_number,
  machine_labels,
};
ghost use Rattle.hart_symmetry.specs.Renaming.{IsRenaming, RenamesFrom};
ghost use Rattle.live_registers.specs.LiveSets.{IsRight, LiveSets};
ghost use Rattle.schedules.specs.Schedules.{AreAllowed};

/// The state with its harts in order is the state with its harts in another order, in which harts
/// that are of no group stay; and their places say which.
pub fn arranged_states_are_renamed()
    ensures { (groups : List ℕ) (stays : ℕ → Bool) → OthersStay groups stays →
        RenamesFrom stays (arranged_state groups) (place_in groups) }
{}

/// Where no hart is of a group, each state is in order.
pub fn ungrouped_harts_stay()
    ensures { (groups : List ℕ) → IsUngrouped groups → (s : MachineState) →
        arranged_state groups s ≡ s }
{}

/// What turns reach after which harts of one group stand in order is what a legal order leads to,
/// but for what is forgotten and the order of such harts; and whatever a legal order leads to, its
/// rest is reached so.
pub fn grouped_states_are_reached()
    ensures sound { (image : ImageParts) (sight : Sight) (live : LiveSets) (groups : List ℕ)
        (r : MachineState) → IsRight image.program live → HidesForgotten live (hides sight) →
        IsReachable (grouped_turn image sight live groups) (grouped_start image sight live groups)
        r →
        (order : List Op) × AreAllowed [] order
        × (is_legal image (opening_state image) order ≡ true)
        × IsRenaming (keeps_number groups) (forgotten_state live (replayed_state image order)) r }
    ensures complete { (image : ImageParts) (sight : Sight) (live : LiveSets) (groups : List ℕ)
        (order : List Op) → IsRight image.program live → HidesForgotten live (hides sight) →
        AreAllowed [] order → is_legal image (opening_state image) order ≡ true →
        (r : MachineState)
        × IsReachable (grouped_turn image sight live groups)
        (grouped_start image sight live groups) r
        × IsRenaming (keeps_number groups)
        (forgotten_state live (rest_by image [] sight (replayed_state image order))) r }
{}

/// A walk of such turns is one by forgotten turns, by the numbers that the harts have in the
/// machine, to a state of which its end is one with harts of one group under other numbers.
pub fn grouped_walks_are_machine_walks()
    ensures { (image : ImageParts) (sight : Sight) (live : LiveSets) (groups labels : List ℕ)
        (r : MachineState) →
        IsWalk (grouped_turn image sight live groups) (grouped_start image sight live groups) labels
        r →
        (s : MachineState)
        × IsWalk (forgotten_turn image sight live) (forgotten_start image sight live)
        (machine_labels image sight live groups labels) s × IsRenaming (keeps_number groups) s r }
{}

/// Where no hart is of a group these are the forgotten turns.
pub fn ungrouped_turns_are_forgotten_turns()
    ensures start { (image : ImageParts) (sight : Sight) (live : LiveSets) (groups : List ℕ) →
        IsUngrouped groups →
        grouped_start image sight live groups ≡ forgotten_start image sight live }
    ensures turns { (image : ImageParts) (sight : Sight) (live : LiveSets) (groups : List ℕ) →
        IsUngrouped groups → (s : MachineState) (label : ℕ) →
        grouped_turn image sight live groups s label ≡ forgotten_turn image sight live s label }
{}
