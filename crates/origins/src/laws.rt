//! The laws of origins: each function's contract is one law, and the function does nothing.

ghost use Rattle.std.specs.Prelude.{◌≡◌, ℕ, List, [], ◌∷◌, ◌++◌};
ghost use Rattle.cheri_model.specs.declared.operation.Op.{Op};
ghost use Rattle.cheri_model.specs.declared.operation.Op.TheVariants as operation;
ghost use Rattle.cap_model.specs.values.Capability.{Capability};
ghost use Rattle.cap_model.specs.values.CapValue.{valid};
ghost use Rattle.cheri_model.specs.runs.Image.{ImageParts};
ghost use Rattle.cheri_model.specs.runs.Machine.{MachineState, opening_state, state_after_one};
ghost use Rattle.cheri_model.specs.runs.Replay.{replayed_state};
ghost use Rattle.cheri_model.specs.runs.Authority.{IsLawfulState};
ghost use Rattle.origins.specs.declared.place.Place.{Place};
ghost use Rattle.origins.specs.Places.{value_in};
ghost use Rattle.origins.specs.Origins.{came_from, replayed_origins};
ghost use Rattle.origins.specs.OriginLaw.{IsFrom, HasOrigin};
ghost use Rattle.origins.specs.Table.{
  Table,
  AreFlows,
  IsOpening,
  IsAfter,
  TellsOrigins,
  next_flows,
};

/// What an operation leaves in a place is made of what was, before it, in the place that it came
/// from: where it is tagged it lies within that (CHERI ISA v9, "provenance and monotonicity").
pub fn operations_keep_origins()
    ensures { (image : ImageParts) (state : MachineState) (op : Op) → IsLawfulState state →
        IsFrom state (came_from image state op) (state_after_one image state op) }
{}

/// One more operation: what is in a place has the origin that it had where it came from.
pub fn origins_grow()
    ensures opening { (image : ImageParts) (place : Place) →
        replayed_origins image [] place ≡ place }
    ensures one_more { (image : ImageParts) (order : List Op) (op : Op) (place : Place) →
        replayed_origins image (order ++ op ∷ []) place
        ≡ replayed_origins image order (came_from image (replayed_state image order) op place) }
{}

/// After every order each tagged value lies within the initial capability that its origin names.
pub fn values_have_origins()
    ensures { (image : ImageParts) (order : List Op) (place : Place) (c : Capability) →
        IsLawfulState (opening_state image) →
        value_in (replayed_state image order) place ≡ valid c →
        HasOrigin image order place c }
{}

/// A table tells the origins along a run: an opened one those of the opening state, and one that
/// followed a step's flows those after the step. A sweep changes none.
pub fn tables_tell_origins()
    ensures opening { (image : ImageParts) (count granules : ℕ) (table : Table) →
        IsOpening count granules table → TellsOrigins image [] table }
    ensures step { (image : ImageParts) (order : List Op) (number : ℕ) (old new : Table) →
        AreFlows old number (next_flows image order number) →
        IsAfter number (next_flows image order number) old new → TellsOrigins image order old →
        TellsOrigins image (order ++ operation.Step number ∷ []) new }
    ensures sweep { (image : ImageParts) (order : List Op) (lo hi : ℕ) (table : Table) →
        TellsOrigins image order table →
        TellsOrigins image (order ++ operation.Sweep lo hi ∷ []) table }
{}
