//! The laws of facts: each function's contract is one law, and the function does nothing.

ghost use Rattle.std.specs.Prelude.{◌≡◌, ℕ, ◌≤◌, List, Some, Ok, true, length, is_some, is_none};
ghost use Rattle.cap_model.specs.values.CapValue.{CapValue, IsLawfulValue, tag_of};
ghost use Rattle.cap_model.specs.results.CapInstructions.{CapInstruction, capability_result};
ghost use Rattle.cap_model.specs.results.Readings.{base_of, top_of};
ghost use Rattle.cap_model.specs.results.Rebuilt.{are_aligned};
ghost use Rattle.cheri_model.specs.declared.instr.Instr.{Instr};
ghost use Rattle.cap_model.specs.results.Seals.{unsealed};
ghost use Rattle.cheri_model.specs.steps.Hart.{HartState, link};
ghost use Rattle.cheri_model.specs.steps.Checks.{first_failing, fetch_table};
ghost use Rattle.cheri_model.specs.declared.trace.Trap.{Trap};
ghost use Rattle.cheri_model.specs.declared.trace.Outcome.TheVariants as outcome;
ghost use Rattle.cheri_model.specs.steps.Actions.{action};
ghost use Rattle.cheri_model.specs.steps.HartStep.{hart_step};
ghost use Rattle.cheri_model.specs.runs.Authority.{EachOfHart};
ghost use Rattle.cheri_model.specs.runs.Machine.{MachineState, swept_state, cleared};
ghost use Rattle.origins.specs.Origins.{Origins};
ghost use Rattle.facts.specs.declared.operands.Operands.{Operands};
ghost use Rattle.facts.specs.declared.why.Why.{Why};
ghost use Rattle.facts.specs.Operands.{derivation_of};
ghost use Rattle.facts.specs.Losses.{why_lost, clears_of};
ghost use Rattle.facts.specs.ClearsLaw.{loses_tag, found_by, IsReason, IsWritten};
ghost use Rattle.facts.specs.TrapsLaw.{IsTrapSo, ReadsRegisters, step_trap_why};
ghost use Rattle.facts.specs.StepFacts.{hart_facts};
ghost use Rattle.facts.specs.EventFacts.{swept_places};
ghost use Rattle.facts.specs.StepLaw.{IsTrapTold, IsLossTold};
ghost use Rattle.facts.specs.SweepLaw.{HaveRegisters, AreTagsLost};

/// A result is tagged exactly where there is no reason for it to have no tag.
pub fn tags_are_kept_without_reasons()
    ensures { (op : CapInstruction) (o : Operands) → IsLawfulValue o.v →
        tag_of (capability_result op o.v o.w) ≡ is_none (why_lost op o) }
{}

/// The reason that is given is that of the first line of the instruction's table which holds: no
/// line before it does.
pub fn reasons_are_so()
    ensures { (op : CapInstruction) (o : Operands) (why : Why) → why_lost op o ≡ Some why →
        IsReason op o why }
{}

/// An instruction that makes a capability writes the result of its operands, and what any other
/// writes without a load has no tag.
pub fn results_are_derived()
    ensures { (i : Instr) (hart : HartState) → IsWritten (derivation_of i hart) (action i hart) }
{}

/// A step that is done says that it cleared a tag exactly where it did: where its result has no tag
/// and the source of the result's flow had one, where CBuildCap's result has none, and where a data
/// store found a tagged granule.
pub fn cleared_tags_are_said()
    ensures { (i : Instr) (hart : HartState) (memory : List CapValue) (origins : Origins)
        (number : ℕ) → EachOfHart IsLawfulValue hart →
        is_some (clears_of i hart (found_by i hart memory origins number))
        ≡ loses_tag i hart memory }
{}

/// The bounds of each word that lie in those of a tagged capability are multiples of their length's
/// alignment: so no word meets that line of CBuildCap's table.
pub fn rebuilt_bounds_are_aligned()
    ensures { (v w : CapValue) → IsLawfulValue v → IsLawfulValue w → tag_of v ≡ true →
        top_of w ≤ top_of v → are_aligned (base_of w) (top_of w) ≡ true }
{}

/// The reason for a trap is so: what it claims holds of the hart and the memory before the step.
/// That the instruction's registers are registers is what `before_step` says.
pub fn trap_reasons_are_so()
    ensures { (program : List Instr) (hart : HartState) (memory : List CapValue) (trap : Trap) →
        ReadsRegisters program hart →
        (hart_step program hart memory).outcome ≡ outcome.Trap trap →
        IsTrapSo (length program) hart memory (step_trap_why program hart trap) }
{}

/// The facts of a step tell a trap where it trapped, and for a reason that is so; they tell a lost
/// tag exactly where the step lost one, for the first reason that holds, and of a place that has
/// no tag after it.
pub fn steps_tell_traps_and_losses()
    ensures traps { (program : List Instr) (number : ℕ) (hart : HartState)
        (memory : List CapValue) (origins : Origins) → ReadsRegisters program hart →
        IsTrapTold (length program) hart memory (hart_step program hart memory).outcome
        (hart_facts program number hart memory origins).traps }
    ensures losses { (program : List Instr) (number : ℕ) (hart : HartState)
        (memory : List CapValue) (origins : Origins) → EachOfHart IsLawfulValue hart →
        IsLossTold program hart memory (hart_facts program number hart memory origins).clears }
{}

/// A place is listed of a sweep exactly where its tag went, and there are as many as the event
/// counts.
pub fn sweeps_list_lost_tags()
    ensures listed { (lo hi : ℕ) (state : MachineState) → HaveRegisters state.harts →
        AreTagsLost state (swept_state lo hi state) (swept_places lo hi state) }
    ensures counted { (lo hi : ℕ) (state : MachineState) → HaveRegisters state.harts →
        length (swept_places lo hi state) ≡ cleared lo hi state }
{}

/// No other value loses a tag: the link of a jump whose fetch passed has one, and what is unsealed,
/// as PCC and the data of CInvoke are, keeps its own.
pub fn links_and_unsealed_values_keep_tags()
    ensures link { (pcc : CapValue) (count : ℕ) → first_failing (fetch_table pcc count) ≡ Ok tt →
        tag_of (link pcc) ≡ true }
    ensures unsealed { (v : CapValue) → tag_of (unsealed v) ≡ tag_of v }
{}
