//! Why a search may keep one of the states that differ in the order of their harts alone. The laws
//! hold of every image, whatever its harts are, and of any way to choose a state.

ghost use Rattle.std.specs.Prelude.{◌≡◌, ℕ, Bool, List, [], length, true};
ghost use Rattle.cheri_model.specs.declared.operation.Op.{Op};
ghost use Rattle.cheri_model.specs.runs.Image.{ImageParts};
ghost use Rattle.cheri_model.specs.runs.Machine.{MachineState, opening_state};
ghost use Rattle.cheri_model.specs.runs.Replay.{is_legal, replayed_state};
ghost use Rattle.conditions.specs.Holding.{holds};
ghost use Rattle.conditions.specs.declared.parts.Node.{Node};
ghost use Rattle.explore_sights.specs.Sights.{hides};
ghost use Rattle.explore_sights.specs.declared.sights.Sight.{Sight};
ghost use Rattle.explore_turns.specs.Turns.{KeepsPassing, has_harts_of, rest_by, turn_by};
ghost use Rattle.forgotten_runs.specs.ForgottenRuns.{forgotten_state};
ghost use Rattle.forgotten_turns.specs.ForgottenTurns.{
  HidesForgotten,
  PassesForgotten,
  forgotten_turn,
};
ghost use Rattle.graph_search.specs.Walks.{IsReachable, IsWalk};
ghost use Rattle.hart_symmetry.specs.ChosenTurns.{chosen_start, chosen_turn};
ghost use Rattle.hart_symmetry.specs.Named.{NamedStay, condition_names};
ghost use Rattle.hart_symmetry.specs.Renaming.{
  IsRenamed,
  IsRenaming,
  PassesRenamed,
  Renames,
  RenamesFrom,
};
ghost use Rattle.hart_symmetry.specs.Symmetry.{IsSymmetry, own_labels};
ghost use Rattle.live_registers.specs.LiveSets.{IsRight, LiveSets};
ghost use Rattle.schedules.specs.declared.ranges.SweepRange.{SweepRange};
ghost use Rattle.schedules.specs.Schedules.{AreAllowed, next};

/// States that differ in the order of their harts alone have the same steps, sweeps and turns: each
/// is that of a hart, which may have another number, and the states after it differ so, too.
pub fn renamed_states_go_alike()
    ensures steps { (image : ImageParts) (sweeps : List SweepRange) (stays : ℕ → Bool) →
        IsSymmetry (next image sweeps) (has_harts_of image) (IsRenaming stays) }
    ensures turns { (image : ImageParts) (sweeps : List SweepRange) (sight : Sight)
        (stays : ℕ → Bool) →
        IsSymmetry (turn_by image sweeps sight) (has_harts_of image) (IsRenaming stays) }
    ensures forgotten { (image : ImageParts) (sight : Sight) (live : LiveSets)
        (stays : ℕ → Bool) →
        IsSymmetry (forgotten_turn image sight live) (has_harts_of image) (IsRenaming stays) }
{}

/// A condition holds of both of two such states or of neither, where each hart that it names has
/// kept its number: counts and `h` speak of all harts alike.
pub fn conditions_treat_harts_alike()
    ensures { (nodes : List Node) (stays : ℕ → Bool) →
        NamedStay stays (condition_names nodes) → PassesRenamed stays (λ s. holds s nodes) }
{}

/// What is reached by turns after each of which a state is chosen is what a legal order leads to,
/// but for what is forgotten and the order of the harts; and whatever a legal order leads to, its
/// rest is reached so. If it passes a test that doesn't depend on either, so does what is reached.
pub fn chosen_states_are_reached()
    ensures sound { (image : ImageParts) (sight : Sight) (live : LiveSets) (stays : ℕ → Bool)
        (choose : MachineState → MachineState) (r : MachineState) →
        IsRight image.program live → HidesForgotten live (hides sight) → Renames stays choose →
        IsReachable (chosen_turn image sight live choose) (chosen_start image sight live choose) r →
        (order : List Op) × AreAllowed [] order
        × (is_legal image (opening_state image) order ≡ true)
        × IsRenaming stays (forgotten_state live (replayed_state image order)) r }
    ensures complete { (image : ImageParts) (sight : Sight) (live : LiveSets) (stays : ℕ → Bool)
        (choose : MachineState → MachineState) (order : List Op) →
        IsRight image.program live → HidesForgotten live (hides sight) → Renames stays choose →
        AreAllowed [] order → is_legal image (opening_state image) order ≡ true →
        (r : MachineState)
        × IsReachable (chosen_turn image sight live choose) (chosen_start image sight live choose) r
        × IsRenaming stays
        (forgotten_state live (rest_by image [] sight (replayed_state image order))) r }
    ensures passes { (image : ImageParts) (sight : Sight) (live : LiveSets) (stays : ℕ → Bool)
        (passing : MachineState → Bool) → KeepsPassing (hides sight) passing →
        PassesForgotten live passing → PassesRenamed stays passing → (s r : MachineState) →
        passing s ≡ true → IsRenaming stays (forgotten_state live (rest_by image [] sight s)) r →
        passing r ≡ true }
{}

/// A walk of such turns has a walk by turns of as many labels, from where turns begin to a state
/// that differs from its end in the order of harts alone; and the other way. So the fewest turns
/// that lead to a chosen state are as many as lead to some state that it was chosen for.
pub fn chosen_walks_are_as_long()
    ensures back { (image : ImageParts) (sight : Sight) (live : LiveSets) (stays : ℕ → Bool)
        (choose : MachineState → MachineState) (o r : MachineState) (labels : List ℕ) →
        Renames stays choose → has_harts_of image o ≡ true →
        IsWalk (chosen_turn image sight live choose) (choose o) labels r →
        (turns : List ℕ) × (s : MachineState)
        × IsWalk (forgotten_turn image sight live) o turns s × IsRenaming stays s r
        × (length turns ≡ length labels) }
    ensures forth { (image : ImageParts) (sight : Sight) (live : LiveSets) (stays : ℕ → Bool)
        (choose : MachineState → MachineState) (o s : MachineState) (turns : List ℕ) →
        Renames stays choose → has_harts_of image o ≡ true →
        IsWalk (forgotten_turn image sight live) o turns s →
        (labels : List ℕ) × (r : MachineState)
        × IsWalk (chosen_turn image sight live choose) (choose o) labels r × IsRenaming stays s r
        × (length labels ≡ length turns) }
{}

/// The labels of such a walk, by the numbers that the harts have where no state is chosen, are a
/// walk by turns to a state of which the end is one with its harts in another order.
pub fn chosen_walks_are_own_walks()
    ensures { (image : ImageParts) (sight : Sight) (live : LiveSets) (stays : ℕ → Bool)
        (choose : MachineState → MachineState) (from : MachineState → ℕ → ℕ)
        (o r : MachineState) (labels : List ℕ) → RenamesFrom stays choose from →
        has_harts_of image o ≡ true →
        IsWalk (chosen_turn image sight live choose) (choose o) labels r →
        (s : MachineState) × (place : ℕ → ℕ)
        × IsWalk (forgotten_turn image sight live) o
        (own_labels (forgotten_turn image sight live) choose from (from o) (choose o) labels) s
        × IsRenamed stays place s r }
{}
