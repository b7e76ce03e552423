//! States in which no hart runs.
#![tactic(auto, using(crate::proofs::OutcomeLemmas::finals))]

ghost use Rattle.std.specs.Prelude.{◌≡◌, ◌+◌, ◌<◌, not, IfOk, OnOk};
ghost use Rattle.cheri_model.specs.runs.Machine.{is_running};
ghost use Rattle.outcomes.specs.Outcomes.{is_final, AreOutcomesBelow};

use crate::numbered::NumberedStates;
use cheri_model::Status;
use conditions::StateView;
use shown_states::SeenState;
use states::Room;
use std::alloc::{AllocError, Global};

/// Whether a hart of this status does not run.
fn is_stopped(status: Status) -> bool
    ensures { result ≡ not (is_running status) }
{
    match status {
        Status::Running => false,
        Status::Halted | Status::Trapped(_) => true,
    }
}

/// Whether no hart runs.
pub fn is_final<V: StateView>(view: &V) -> bool
    ensures { result ≡ is_final (V.state view.now) }
{
    for hart in 0..view.hart_count() {
        if !is_stopped(view.status(hart)) {
            return false;
        }
    }
    true
}

/// Adds the next state to the outcomes of those before it, if no hart runs in it.
fn judge<S: NumberedStates>(
    states: &S,
    number: u32,
    numbers: &mut Vec<u32>,
) -> Result<(), AllocError>
    requires there { number < S.count states.now }
    requires before { AreOutcomesBelow (S.at states.now) number numbers.old.items }
    ensures { OnOk result (AreOutcomesBelow (S.at states.now) (number + 1) numbers.new.items) }
{
    let mut room = Room::new();
    let state = SeenState::new(states.state(number, &mut room));
    if !is_final(&state) {
        return Ok(());
    }
    numbers.push(number)?;
    Ok(())
}

/// The numbers of the states in which no hart runs, ascending. Fails only when out of memory.
pub fn outcomes_of<S: NumberedStates>(alloc: Global, states: &S) -> Result<Vec<u32>, AllocError>
    ensures { IfOk result (λ numbers.
        AreOutcomesBelow (S.at states.now) (S.count states.now) numbers.items) }
{
    let mut numbers = Vec::new(alloc);
    for number in 0..states.len() {
        judge(states, number, &mut numbers)?;
    }
    Ok(numbers)
}
