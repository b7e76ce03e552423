//! Why a search in which accesses to own granules are quiet may forget, in each state that it
//! meets, the registers that don't matter. The laws hold of every image, every choice of shared
//! granules and of owners, all sets of registers that are right for its program, and every question
//! that sees nothing that is forgotten.

ghost use Rattle.std.specs.Prelude.{◌≡◌, ℕ, Bool, List, [], Option, option_map, true};
ghost use Rattle.cheri_model.specs.declared.operation.Op.{Op};
ghost use Rattle.cheri_model.specs.runs.Image.{ImageParts};
ghost use Rattle.cheri_model.specs.runs.ImageRules.{is_image};
ghost use Rattle.cheri_model.specs.runs.Machine.{MachineState, is_running, opening_state};
ghost use Rattle.cheri_model.specs.runs.Replay.{is_legal, replayed_state};
ghost use Rattle.cheri_model.specs.steps.Hart.{HartState};
ghost use Rattle.explore_sights.specs.Sights.{hides};
ghost use Rattle.explore_sights.specs.declared.sights.Sight.{Sight};
ghost use Rattle.explore_turns.specs.QuietSteps.{asks_memory};
ghost use Rattle.explore_turns.specs.declared.quiet.TheConstants.{MAX_QUIET_STEPS};
ghost use Rattle.owned_turns.specs.OwnedTurns.{AreOwnedForgotten, owned_start, owned_turn};
ghost use Rattle.forgotten_runs.specs.ForgottenRuns.{forgotten_state};
ghost use Rattle.forgotten_turns.specs.ForgottenTurns.{HidesForgotten, PassesForgotten};
ghost use Rattle.graph_search.specs.Walks.{IsReachable, IsWalk, after};
ghost use Rattle.live_registers.specs.LiveSets.{IsRight, LiveSets, forgotten_hart};
ghost use Rattle.own_granules.specs.Granules.{asks_store, granule_of, is_quiet};
ghost use Rattle.own_granules.specs.Turns.{AreOwned, KeepsPassing, rest_of, start, turn};
ghost use Rattle.schedules.specs.Schedules.{AreAllowed};

/// A hart that runs and has forgotten asks of memory what the hart asks.
pub fn accesses_forget()
    ensures asks { (image : ImageParts) (live : LiveSets) (h : HartState) →
        IsRight image.program live → is_running h.status ≡ true →
        asks_memory image.program (forgotten_hart live h) ≡ asks_memory image.program h }
    ensures stores { (image : ImageParts) (live : LiveSets) (h : HartState) →
        IsRight image.program live → is_running h.status ≡ true →
        asks_store image.program (forgotten_hart live h) ≡ asks_store image.program h }
    ensures granule { (image : ImageParts) (live : LiveSets) (h : HartState) →
        IsRight image.program live → is_running h.status ≡ true →
        granule_of image (forgotten_hart live h) ≡ granule_of image h }
{}

/// A step of a state that has forgotten is quiet where that of the state is.
pub fn quiet_steps_forget()
    ensures { (image : ImageParts) (shared : ℕ → Bool) (sight : Sight) (live : LiveSets)
        (s : MachineState) (l : ℕ) → IsRight image.program live →
        HidesForgotten live (hides sight) →
        is_quiet image [] shared (hides sight) (forgotten_state live s) l
        ≡ is_quiet image [] shared (hides sight) s l }
{}

/// A turn of a state that has forgotten leads to what the state after the turn forgets to be, and
/// so does a walk by turns after each of which harts forget.
pub fn owned_turns_forget()
    ensures turn { (image : ImageParts) (shared : ℕ → Bool) (sight : Sight) (live : LiveSets)
        (s : MachineState) (l : ℕ) → IsRight image.program live →
        HidesForgotten live (hides sight) →
        owned_turn image shared sight live (forgotten_state live s) l
        ≡ owned_turn image shared sight live s l }
    ensures walks { (image : ImageParts) (shared : ℕ → Bool) (sight : Sight) (live : LiveSets)
        (s : MachineState) (labels : List ℕ) → IsRight image.program live →
        HidesForgotten live (hides sight) →
        after (owned_turn image shared sight live) (forgotten_state live s) labels
        ≡ option_map (forgotten_state live)
        (after (turn image [] shared (hides sight) MAX_QUIET_STEPS) s labels) }
    ensures reached { (image : ImageParts) (shared : ℕ → Bool) (sight : Sight) (live : LiveSets)
        (s : MachineState) → IsRight image.program live → HidesForgotten live (hides sight) →
        IsReachable (turn image [] shared (hides sight) MAX_QUIET_STEPS)
        (start image [] shared (hides sight) MAX_QUIET_STEPS) s →
        IsReachable (owned_turn image shared sight live) (owned_start image shared sight live)
        (forgotten_state live s) }
    ensures labels { (image : ImageParts) (shared : ℕ → Bool) (sight : Sight) (live : LiveSets)
        (labels : List ℕ) (r : MachineState) → IsRight image.program live →
        HidesForgotten live (hides sight) →
        IsWalk (owned_turn image shared sight live) (owned_start image shared sight live)
        labels r →
        (s : MachineState) × IsWalk (turn image [] shared (hides sight) MAX_QUIET_STEPS)
        (start image [] shared (hides sight) MAX_QUIET_STEPS) labels s
        × (forgotten_state live s ≡ r) }
{}

/// Where all that a search by such turns has met respects owners, so has all that a search has met
/// in which no hart forgets.
pub fn forgotten_searches_leave_nothing_out()
    ensures { (image : ImageParts) (shared : ℕ → Bool) (owner : ℕ → Option ℕ) (sight : Sight)
        (live : LiveSets) → IsRight image.program live → HidesForgotten live (hides sight) →
        AreOwnedForgotten image shared owner sight live →
        AreOwned image [] shared owner (hides sight) MAX_QUIET_STEPS }
{}

/// Then of a state that any legal order of steps leaves, what it forgets to be at its rest is
/// reached by such turns; and this passes a test that the state passes, where the test passes just
/// the states that pass when they have forgotten, and still passes after quiet steps.
pub fn passing_states_are_reached()
    ensures reached { (image : ImageParts) (shared : ℕ → Bool) (owner : ℕ → Option ℕ)
        (sight : Sight) (live : LiveSets) (order : List Op) → is_image image ≡ true →
        IsRight image.program live → HidesForgotten live (hides sight) →
        AreOwnedForgotten image shared owner sight live → AreAllowed [] order →
        is_legal image (opening_state image) order ≡ true →
        IsReachable (owned_turn image shared sight live) (owned_start image shared sight live)
        (forgotten_state live (rest_of image [] shared (hides sight) MAX_QUIET_STEPS
        (replayed_state image order))) }
    ensures passes { (image : ImageParts) (shared : ℕ → Bool) (sight : Sight) (live : LiveSets)
        (passing : MachineState → Bool) → KeepsPassing image [] shared (hides sight) passing →
        PassesForgotten live passing → (s : MachineState) → passing s ≡ true →
        passing (forgotten_state live
        (rest_of image [] shared (hides sight) MAX_QUIET_STEPS s)) ≡ true }
{}
