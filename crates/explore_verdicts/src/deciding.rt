//! States that decide what a property claims of a condition.

ghost use Rattle.std.specs.Prelude.{◌≡◌};
ghost use Rattle.explore_verdicts.specs.Deciding.{decides};
ghost use Rattle.states.specs.Kept.{IsFirstPassing};

use conditions::{Condition, StateView};
use explore_properties::When;
use outcomes::is_final;
use shown_states::SeenState;
use state_store::State;
use states::{Kept, Room, StateTest};

/// Whether a state decides when a condition holds, as a test of states.
#[derive(Clone, Copy)]
pub struct Decision<'a> {
    pub when: When,
    pub condition: &'a Condition,
}

impl Decision<'_> {
    /// Whether this one does.
    fn is_made_in<V: StateView>(&self, view: &V) -> bool
        ensures { result ≡ decides self.now.when self.now.condition.now (V.state view.now) }
    {
        match self.when {
            When::Never => self.condition.holds(view),
            When::Always => !self.condition.holds(view),
            When::Sometimes => self.condition.holds(view),
            When::Finally => is_final(view) && !self.condition.holds(view),
        }
    }
}

impl StateTest for Decision<'_> {
    ghost passing = { λ test s. decides test.when test.condition.now s };

    fn passes(&self, state: State<'_>) -> bool {
        self.is_made_in(&SeenState::new(state))
    }
}

/// The first kept state that passes a test.
fn first_passing<T: StateTest>(kept: &Kept, test: &T) -> Option<u32>
    ensures { IsFirstPassing kept.now (T.passing test.now) result }
{
    for number in 0..kept.len() {
        if test.passes(kept.state(number, &mut Room::new())) {
            return Some(number);
        }
    }
    None
}

/// The first kept state that decides, if one does.
pub(crate) fn first_deciding(kept: &Kept, when: When, condition: &Condition) -> Option<u32>
    ensures { IsFirstPassing kept.now (decides when condition.now) result }
{
    first_passing(kept, &Decision { when, condition })
}
