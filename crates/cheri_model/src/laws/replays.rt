//! The laws of replays: what an order followed by another leaves, adds and is.

ghost use Rattle.std.specs.Prelude.{◌≡◌, ℕ, List, ◌++◌, ◌&&◌, map, true};
ghost use Rattle.cheri_model.specs.runs.Image.{ImageParts};
ghost use Rattle.cheri_model.specs.declared.operation.Op.{Op};
ghost use Rattle.cheri_model.specs.declared.operation.Op.TheVariants as operation;
ghost use Rattle.cheri_model.specs.declared.operation.Event.TheVariants as event;
ghost use Rattle.cheri_model.specs.runs.Machine.{MachineState};
ghost use Rattle.cheri_model.specs.runs.Replay.{state_after, events_of, is_legal, IsPrefixOf};
ghost use Rattle.cheri_model.specs.runs.Replay.{
  state_after_steps,
  are_legal_steps,
  entries_of_steps,
};

/// An order followed by another runs the second from where the first has ended: its state, its
/// events, and whether it is legal.
pub fn orders_follow_one_another()
    ensures state { (image : ImageParts) (state : MachineState) (first later : List Op)
        → state_after image state (first ++ later)
        ≡ state_after image (state_after image state first) later }
    ensures events { (image : ImageParts) (state : MachineState) (first later : List Op)
        → events_of image state (first ++ later)
        ≡ events_of image state first
        ++ events_of image (state_after image state first) later }
    ensures legal { (image : ImageParts) (state : MachineState) (first later : List Op)
        → is_legal image state (first ++ later)
        ≡ (is_legal image state first && is_legal image (state_after image state first) later) }
{}

/// A prefix of a legal order is legal, and its events are a prefix of the whole order's.
pub fn prefixes_of_runs()
    ensures legal { (image : ImageParts) (state : MachineState) (first order : List Op)
        → IsPrefixOf first order → is_legal image state order ≡ true
        → is_legal image state first ≡ true }
    ensures events { (image : ImageParts) (state : MachineState) (first order : List Op)
        → IsPrefixOf first order
        → IsPrefixOf (events_of image state first) (events_of image state order) }
{}

/// An order without sweeps is what it says of its harts alone: one step after another, each with
/// its entry, and legal where each hart runs in its turn.
pub fn orders_of_steps_are_steps()
    ensures state { (image : ImageParts) (state : MachineState) (numbers : List ℕ)
        → state_after image state (map operation.Step numbers)
        ≡ state_after_steps image state numbers }
    ensures events { (image : ImageParts) (state : MachineState) (numbers : List ℕ)
        → events_of image state (map operation.Step numbers)
        ≡ map event.Step (entries_of_steps image state numbers) }
    ensures legal { (image : ImageParts) (state : MachineState) (numbers : List ℕ)
        → is_legal image state (map operation.Step numbers)
        ≡ are_legal_steps image state numbers }
{}
