//! Why the other registers can be forgotten: conditions hold in a state, and see of a step, and
//! items show of a state, what they do where each hart has forgotten. The laws hold of every
//! program, all sets that are right for it and have what is asked for, and every state.

ghost use Rattle.std.specs.Prelude.{◌≡◌, All, List};
ghost use Rattle.asked_registers.specs.Asked.{
  HasAsked,
  ShowsSame,
  condition_asks,
  items_ask,
};
ghost use Rattle.cheri_model.specs.declared.instr.Instr.{Instr};
ghost use Rattle.cheri_model.specs.runs.Machine.{MachineState};
ghost use Rattle.cheri_model.specs.steps.Hart.{HartState};
ghost use Rattle.conditions.specs.declared.parts.Node.{Node};
ghost use Rattle.conditions.specs.declared.parts.Shown.{Shown};
ghost use Rattle.conditions.specs.Hiding.{hides};
ghost use Rattle.conditions.specs.Holding.{holds};
ghost use Rattle.forgotten_runs.specs.ForgottenRuns.{forgotten_state};
ghost use Rattle.live_registers.specs.LiveSets.{IsRight, LiveSets, forgotten_hart};

/// A condition holds in the forgotten state just where it holds in the state.
pub fn conditions_forget()
    ensures { (program : List Instr) (live : LiveSets) (s : MachineState) (nodes : List Node) →
        IsRight program live → HasAsked live.asked (condition_asks nodes) →
        holds (forgotten_state live s) nodes ≡ holds s nodes }
{}

/// A condition sees of a step of a hart what it sees where the hart has forgotten, before the step
/// and after it.
pub fn hidden_steps_forget()
    ensures { (program : List Instr) (live : LiveSets) (nodes : List Node)
        (before after : HartState) → IsRight program live →
        HasAsked live.asked (condition_asks nodes) →
        hides nodes (forgotten_hart live before) (forgotten_hart live after)
        ≡ hides nodes before after }
{}

/// Items show the same of the forgotten state and of the state.
pub fn items_forget()
    ensures { (program : List Instr) (live : LiveSets) (s : MachineState) (items : List Shown) →
        IsRight program live → HasAsked live.asked (items_ask items) →
        All (ShowsSame (forgotten_state live s) s) items }
{}
