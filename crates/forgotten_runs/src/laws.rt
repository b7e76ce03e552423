//! Why a search may forget the registers that don't matter in each state that it meets. The laws
//! hold of every image, all sets that are right for its program, every state and every order.

ghost use Rattle.std.specs.Prelude.{◌≡◌, ℕ, List, length, true};
ghost use Rattle.cheri_model.specs.declared.operation.Op.{Op};
ghost use Rattle.cheri_model.specs.declared.operation.Op.TheVariants as operation;
ghost use Rattle.cheri_model.specs.declared.instr.Instr.{Instr};
ghost use Rattle.cheri_model.specs.runs.Image.{ImageParts};
ghost use Rattle.cheri_model.specs.runs.Machine.{
  MachineState,
  entry_of,
  hart_at,
  may_take,
  state_after_one,
};
ghost use Rattle.cheri_model.specs.runs.Replay.{is_legal, state_after};
ghost use Rattle.cheri_model.specs.steps.Hart.{register};
ghost use Rattle.forgotten_runs.specs.ForgottenRuns.{
  forgotten_after,
  forgotten_run,
  forgotten_state,
  is_legal_run,
};
ghost use Rattle.live_registers.specs.LiveSets.{IsRight, LiveSets};
ghost use Rattle.live_registers.specs.RegisterSets.{has};

/// Forgetting twice is forgetting once. There are as many harts, memory is as it was, and each hart
/// keeps its PCC, its status and each register that the question looks at.
pub fn forgotten_states_keep()
    ensures twice { (live : LiveSets) (s : MachineState) →
        forgotten_state live (forgotten_state live s) ≡ forgotten_state live s }
    ensures count { (live : LiveSets) (s : MachineState) →
        length (forgotten_state live s).harts ≡ length s.harts }
    ensures memory { (live : LiveSets) (s : MachineState) →
        (forgotten_state live s).memory ≡ s.memory }
    ensures pcc { (live : LiveSets) (s : MachineState) (hart : ℕ) →
        (hart_at (forgotten_state live s) hart).pcc ≡ (hart_at s hart).pcc }
    ensures status { (live : LiveSets) (s : MachineState) (hart : ℕ) →
        (hart_at (forgotten_state live s) hart).status ≡ (hart_at s hart).status }
    ensures asked { (program : List Instr) (live : LiveSets) (s : MachineState) (hart reg : ℕ) →
        IsRight program live → has live.asked reg ≡ true →
        register (hart_at (forgotten_state live s) hart) reg ≡ register (hart_at s hart) reg }
{}

/// An operation may be taken in a forgotten state where it may be taken in the state. There it does
/// to memory what it does in the state, a step is the same entry of the trace, and it leads to what
/// the state after it forgets to be.
pub fn operations_forget()
    ensures may { (live : LiveSets) (s : MachineState) (op : Op) →
        may_take (forgotten_state live s) op ≡ may_take s op }
    ensures memory { (image : ImageParts) (live : LiveSets) (s : MachineState) (op : Op) →
        IsRight image.program live → may_take s op ≡ true →
        (state_after_one image (forgotten_state live s) op).memory
        ≡ (state_after_one image s op).memory }
    ensures entry { (image : ImageParts) (live : LiveSets) (s : MachineState) (hart : ℕ) →
        IsRight image.program live → may_take s (operation.Step hart) ≡ true →
        entry_of image (forgotten_state live s) hart ≡ entry_of image s hart }
    ensures state { (image : ImageParts) (live : LiveSets) (s : MachineState) (op : Op) →
        IsRight image.program live → may_take s op ≡ true →
        forgotten_after live image (forgotten_state live s) op ≡ forgotten_after live image s op }
{}

/// An order on whose way each hart forgets is legal where the order is. Then it leads to what the
/// state after the order forgets to be: memory, and each hart's PCC and status, are the same.
pub fn orders_forget()
    ensures legal { (image : ImageParts) (live : LiveSets) (s : MachineState) (order : List Op) →
        IsRight image.program live →
        is_legal_run live image (forgotten_state live s) order ≡ is_legal image s order }
    ensures state { (image : ImageParts) (live : LiveSets) (s : MachineState) (order : List Op) →
        IsRight image.program live → is_legal image s order ≡ true →
        forgotten_run live image (forgotten_state live s) order
        ≡ forgotten_state live (state_after image s order) }
    ensures memory { (image : ImageParts) (live : LiveSets) (s : MachineState) (order : List Op) →
        IsRight image.program live → is_legal image s order ≡ true →
        (forgotten_run live image (forgotten_state live s) order).memory
        ≡ (state_after image s order).memory }
    ensures pcc { (image : ImageParts) (live : LiveSets) (s : MachineState) (order : List Op)
        (hart : ℕ) → IsRight image.program live → is_legal image s order ≡ true →
        (hart_at (forgotten_run live image (forgotten_state live s) order) hart).pcc
        ≡ (hart_at (state_after image s order) hart).pcc }
    ensures status { (image : ImageParts) (live : LiveSets) (s : MachineState) (order : List Op)
        (hart : ℕ) → IsRight image.program live → is_legal image s order ≡ true →
        (hart_at (forgotten_run live image (forgotten_state live s) order) hart).status
        ≡ (hart_at (state_after image s order) hart).status }
{}
