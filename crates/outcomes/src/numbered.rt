//! States that have numbers.

ghost use Rattle.std.specs.Prelude.{◌≡◌, ℕ, ◌<◌, Option, IsSome};
ghost use Rattle.cheri_model.specs.runs.Machine.{MachineState};
ghost use Rattle.state_store.specs.Stores.{state_of};

use state_store::State;
use states::{Kept, Room};

/// States that have numbers, from 0 up, as a search gives them to those that it keeps.
pub trait NumberedStates {
    /// The state of a number.
    ghost at: { Self → ℕ → Option MachineState };

    /// How many states there are.
    ghost count: { Self → ℕ };

    /// How many states there are.
    fn len(&self) -> u32
        ensures { result ≡ count self.now };

    /// The state of this number, whose row is written to `room`.
    fn state<'a>(&'a self, number: u32, room: &'a mut Room) -> State<'a>
        requires { number < count self.now }
        ensures state { at self.now number ≡ state_of result.store.now result.row.now }
        ensures meant { IsSome (state_of result.store.now result.row.now) };
}

impl NumberedStates for Kept {
    ghost use Rattle.states.specs.Kept as kept_states;

    ghost at = { λ kept. kept_states.at kept };

    ghost count = { λ kept. kept_states.count kept };

    fn len(&self) -> u32 {
        Kept::len(self)
    }

    fn state<'a>(&'a self, number: u32, room: &'a mut Room) -> State<'a> {
        Kept::state(self, number, room)
    }
}
