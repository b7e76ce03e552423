//! Why the steps of a hart's state can be computed once.

ghost use Rattle.std.specs.Prelude.{◌≡◌, ℕ, ◌<◌, List, length, slice_set};
ghost use Rattle.cap_model.specs.values.CapValue.{CapValue};
ghost use Rattle.cheri_model.specs.declared.instr.Instr.{Instr};
ghost use Rattle.cheri_model.specs.steps.Hart.{HartState};
ghost use Rattle.cheri_model.specs.steps.HartStep.{hart_step};
ghost use Rattle.cheri_model.specs.steps.Memory.{granule_at};
ghost use Rattle.states.specs.Locals.{touched, local_step, local_value};

/// A step touches at most one granule, which its hart determines; and what it does to the hart and
/// to that granule depends on the hart and on that granule's value alone.
pub fn steps_touch_one_granule()
    ensures hart { (program : List Instr) (h : HartState) (m : List CapValue) (v : CapValue) →
        0 < length m → granule_at m (touched program (length m) h) ≡ v →
        (hart_step program h m).hart ≡ (local_step program (length m) h v).hart }
    ensures memory { (program : List Instr) (h : HartState) (m : List CapValue) (v : CapValue) →
        0 < length m → granule_at m (touched program (length m) h) ≡ v →
        (hart_step program h m).memory ≡ slice_set m (touched program (length m) h)
        (local_value program (length m) h v) }
{}
