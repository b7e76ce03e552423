//! What a search for a state asks of each state.

ghost use Rattle.std.specs.Prelude.{◌≡◌, Bool, Some, IsSome};
ghost use Rattle.cheri_model.specs.runs.Machine.{MachineState};
ghost use Rattle.state_store.specs.Stores.{state_of};

use state_store::State;

/// A test of states, that a search looks for the first state to pass.
pub trait StateTest {
    /// Whether a state passes.
    ghost passing: { Self → MachineState → Bool };

    /// Whether the state passes.
    fn passes(&self, state: State<'_>) -> bool
        requires { IsSome (state_of state.store.now state.row.now) }
        ensures { (s : MachineState) → state_of state.entry.store.now state.entry.row.now ≡ Some s →
            result ≡ passing self.now s };
}
