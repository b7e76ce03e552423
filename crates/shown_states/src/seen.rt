//! A kept state as conditions see it.

ghost use Rattle.std.specs.Prelude.{◌≡◌, ◌<◌, length, Some, IsSome};
ghost use Rattle.cheri_model.specs.runs.Machine.{MachineState, hart_at};
ghost use Rattle.cheri_model.specs.steps.Hart.{register};
ghost use Rattle.cheri_model.specs.steps.Memory.{granule_at};
ghost use Rattle.conditions.specs.Holding.{holds};
ghost use Rattle.state_store.specs.Stores.{state_of};

use cap_ops::Cap;
use cheri_model::{Reg, Status};
use conditions::{Condition, StateView};
use state_store::State;
use states::StateTest;
use std::marker::Model;

/// A kept state, seen where it is kept. Contracts see the state itself.
#[derive(Drop)]
pub struct SeenState<'a> {
    state: State<'a>,
}

impl<'a> Model for SeenState<'a> {
    ghost use Rattle.std.specs.Prelude.{IsSome};
    ghost use Rattle.cheri_model.specs.runs.Machine.{MachineState};
    ghost use Rattle.state_store.specs.Stores.{state_of};
    ghost use Rattle.shown_states.specs.Meant.{state_meant};

    ghost Value = { MachineState };

    ghost view = { λ v. state_meant (state_of v.state.store.now v.state.row.now) };

    ghost invariant = { λ v. IsSome (state_of v.state.store.now v.state.row.now) };
}

impl<'a> SeenState<'a> {
    /// Sees a kept state.
    pub fn new(state: State<'a>) -> SeenState<'a>
        requires { IsSome (state_of state.store.now state.row.now) }
        ensures { (s : MachineState) → state_of state.entry.store.now state.entry.row.now ≡ Some s →
            result ≡ s }
    {
        SeenState { state }
    }
}

impl StateView for SeenState<'_> {
    ghost state = { λ v. v };

    fn hart_count(&self) -> usize {
        self.state.hart_count()
    }

    fn granule_count(&self) -> usize {
        self.state.granule_count()
    }

    fn register(&self, hart: usize, reg: Reg) -> Cap {
        self.state.register(hart, reg)
    }

    fn pcc(&self, hart: usize) -> Cap {
        self.state.pcc(hart)
    }

    fn status(&self, hart: usize) -> Status {
        self.state.status(hart)
    }

    fn granule(&self, number: usize) -> Cap {
        self.state.granule(number)
    }
}

/// Whether a condition holds in a kept state.
#[derive(Clone, Copy)]
pub struct ConditionTest<'a> {
    pub condition: &'a Condition,
}

impl StateTest for ConditionTest<'_> {
    ghost passing = { λ test s. holds s test.condition.now };

    fn passes(&self, state: State<'_>) -> bool {
        self.condition.holds(&SeenState::new(state))
    }
}
