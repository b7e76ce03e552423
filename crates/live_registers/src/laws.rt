//! Why the registers that don't matter can be forgotten. The laws hold of every program, every
//! right table, every hart and every memory.

ghost use Rattle.std.specs.Prelude.{◌≡◌, ℕ, List, true};
ghost use Rattle.cap_model.specs.values.CapValue.{CapValue};
ghost use Rattle.cheri_model.specs.declared.instr.Instr.{Instr};
ghost use Rattle.cheri_model.specs.runs.Machine.{is_running};
ghost use Rattle.cheri_model.specs.runs.Sweeps.{swept_hart};
ghost use Rattle.cheri_model.specs.steps.Hart.{HartState, register};
ghost use Rattle.cheri_model.specs.steps.HartStep.{hart_step};
ghost use Rattle.live_registers.specs.RegisterSets.{has};
ghost use Rattle.live_registers.specs.LiveSets.{IsRight, LiveSets, forgotten_hart};

/// A step of a hart that has forgotten does to memory what the hart's step does, ends as it ends,
/// and leads to what the hart after its step forgets to be.
pub fn steps_forget()
    ensures memory { (program : List Instr) (live : LiveSets) (h : HartState) (m : List CapValue) →
        IsRight program live → is_running h.status ≡ true →
        (hart_step program (forgotten_hart live h) m).memory ≡ (hart_step program h m).memory }
    ensures outcome { (program : List Instr) (live : LiveSets) (h : HartState)
        (m : List CapValue) → IsRight program live → is_running h.status ≡ true →
        (hart_step program (forgotten_hart live h) m).outcome ≡ (hart_step program h m).outcome }
    ensures hart { (program : List Instr) (live : LiveSets) (h : HartState) (m : List CapValue) →
        IsRight program live → is_running h.status ≡ true →
        forgotten_hart live (hart_step program (forgotten_hart live h) m).hart
        ≡ forgotten_hart live (hart_step program h m).hart }
{}

/// A sweep of a hart that has forgotten leads to what the swept hart forgets to be.
pub fn sweeps_forget()
    ensures { (program : List Instr) (live : LiveSets) (lo hi : ℕ) (h : HartState) →
        IsRight program live →
        forgotten_hart live (swept_hart lo hi (forgotten_hart live h))
        ≡ forgotten_hart live (swept_hart lo hi h) }
{}

/// Forgetting twice is forgetting once. PCC and status stay, and so does each register that the
/// question looks at.
pub fn forgetting_keeps()
    ensures twice { (live : LiveSets) (h : HartState) →
        forgotten_hart live (forgotten_hart live h) ≡ forgotten_hart live h }
    ensures pcc { (live : LiveSets) (h : HartState) → (forgotten_hart live h).pcc ≡ h.pcc }
    ensures status { (live : LiveSets) (h : HartState) →
        (forgotten_hart live h).status ≡ h.status }
    ensures asked { (program : List Instr) (live : LiveSets) (h : HartState) (reg : ℕ) →
        IsRight program live → has live.asked reg ≡ true →
        register (forgotten_hart live h) reg ≡ register h reg }
{}
