//! That harts change places only among those of their own group.

ghost use Rattle.std.specs.Prelude.{◌≡◌, ℕ, ◌<◌, List, [], true};
ghost use Rattle.cheri_model.specs.declared.operation.Op.{Op};
ghost use Rattle.cheri_model.specs.runs.Image.{ImageParts};
ghost use Rattle.cheri_model.specs.runs.Machine.{MachineState, opening_state};
ghost use Rattle.cheri_model.specs.runs.Replay.{is_legal, replayed_state};
ghost use Rattle.explore_sights.specs.Sights.{hides};
ghost use Rattle.explore_sights.specs.declared.sights.Sight.{Sight};
ghost use Rattle.explore_turns.specs.Turns.{rest_by};
ghost use Rattle.forgotten_runs.specs.ForgottenRuns.{forgotten_state};
ghost use Rattle.forgotten_turns.specs.ForgottenTurns.{
  HidesForgotten,
  forgotten_start,
  forgotten_turn,
};
ghost use Rattle.graph_search.specs.Walks.{IsReachable, IsWalk};
ghost use Rattle.hart_order.specs.GroupedTurns.{grouped_start, grouped_turn, machine_labels};
ghost use Rattle.hart_regrouping.specs.Regrouping.{AreAlike, IsRegrouping};
ghost use Rattle.live_registers.specs.LiveSets.{IsRight, LiveSets};
ghost use Rattle.live_registers.specs.RegisterSets.{has};
ghost use Rattle.schedules.specs.Schedules.{AreAllowed};

/// Of each state that a legal order leaves, what it forgets to be at its rest is reached by turns
/// after which harts of one group stand in order, with harts under numbers of their own group.
pub fn grouped_states_are_regrouped()
    ensures { (image : ImageParts) (sight : Sight) (live : LiveSets) (groups : List ℕ)
        (order : List Op) → IsRight image.program live → HidesForgotten live (hides sight) →
        AreAllowed [] order → is_legal image (opening_state image) order ≡ true →
        (r : MachineState)
        × IsReachable (grouped_turn image sight live groups)
        (grouped_start image sight live groups) r
        × IsRegrouping groups
        (forgotten_state live (rest_by image [] sight (replayed_state image order))) r }
{}

/// A walk of such turns is one by forgotten turns, by the numbers that the harts have in the
/// machine, to a state of which its end is one with harts under numbers of their own group.
pub fn grouped_walks_are_regrouped()
    ensures { (image : ImageParts) (sight : Sight) (live : LiveSets) (groups labels : List ℕ)
        (r : MachineState) →
        IsWalk (grouped_turn image sight live groups) (grouped_start image sight live groups) labels
        r →
        (s : MachineState)
        × IsWalk (forgotten_turn image sight live) (forgotten_start image sight live)
        (machine_labels image sight live groups labels) s × IsRegrouping groups s r }
{}

/// Where all registers are asked for, so that none is forgotten, two states are alike of which
/// harts forget to be the same in some order of those of each group.
pub fn regrouped_states_are_alike()
    ensures { (image : ImageParts) (live : LiveSets) (groups : List ℕ) (s t r : MachineState) →
        IsRight image.program live → ((reg : ℕ) → reg < 32 → has live.asked reg ≡ true) →
        IsRegrouping groups (forgotten_state live s) r →
        IsRegrouping groups (forgotten_state live t) r → AreAlike groups s t }
{}
