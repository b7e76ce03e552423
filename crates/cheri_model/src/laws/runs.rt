//! The laws of runs: a legal operation keeps the replay, and neither a step nor a run makes
//! authority.

ghost use Rattle.std.specs.Prelude.{◌≡◌, List, [], ◌∷◌, ◌++◌, true};
ghost use Rattle.cheri_model.specs.declared.instr.Instr.{Instr};
ghost use Rattle.cheri_model.specs.declared.operation.Event.{Event};
ghost use Rattle.cheri_model.specs.declared.operation.Op.{Op};
ghost use Rattle.cap_model.specs.values.CapValue.{CapValue};
ghost use Rattle.cheri_model.specs.steps.Hart.{HartState};
ghost use Rattle.cheri_model.specs.steps.HartStep.{hart_step};
ghost use Rattle.cheri_model.specs.runs.Image.{ImageParts};
ghost use Rattle.cheri_model.specs.runs.Machine.{
  MachineState,
  opening_state,
  may_take,
  event_of,
  state_after_one,
};
ghost use Rattle.cheri_model.specs.runs.Replay.{IsReplay, replayed_state};
ghost use Rattle.cheri_model.specs.runs.Authority.{IsLawfulState, IsConfined, IsConfinedTo, alone};

/// The empty trace with the image's opening state is a replay, and a legal operation makes a longer
/// one.
pub fn replay_grows()
    ensures opening { (image : ImageParts) → IsReplay image [] (opening_state image) }
    ensures one_more { (image : ImageParts) (trace : List Event) (state : MachineState)
        (op : Op) → IsReplay image trace state → may_take state op ≡ true
        → IsReplay image (trace ++ event_of image state op ∷ []) (state_after_one image state op) }
{}

/// Where the values of a hart and of memory are lawful, every tagged one after a step of the hart
/// is granted by those before it (CHERI ISA v9, "capability monotonicity").
pub fn steps_are_confined()
    ensures { (program : List Instr) (hart : HartState) (memory : List CapValue)
        → IsLawfulState (alone hart memory) → IsConfinedTo (alone hart memory)
        (alone (hart_step program hart memory).hart (hart_step program hart memory).memory) }
{}

/// Where the opening state's values are lawful, every value of each state of a run is lawful, and
/// every tagged one is granted by an initial capability: authority is never made (CHERI ISA v9,
/// "capability monotonicity"). The same holds of the values after any prefix of the run.
pub fn runs_are_confined()
    ensures lawful { (image : ImageParts) (order : List Op)
        → IsLawfulState (opening_state image) → IsLawfulState (replayed_state image order) }
    ensures confined { (image : ImageParts) (order : List Op)
        → IsLawfulState (opening_state image) → IsConfined image (replayed_state image order) }
    ensures monotone { (image : ImageParts) (before later : List Op)
        → IsLawfulState (opening_state image)
        → IsConfinedTo (replayed_state image before) (replayed_state image (before ++ later)) }
{}
