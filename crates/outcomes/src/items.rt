//! What items hold in a state.
#![tactic(auto, unfolding(crate::proofs::Unfold::items))]

ghost use Rattle.std.specs.Prelude.{◌≡◌, ◌++◌, ◌<◌, ◌^◌, OnOk, IfOk};
ghost use Rattle.cheri_model.specs.runs.Machine.{hart_at};
ghost use Rattle.outcomes.specs.Items.{
  above,
  code_of,
  codes_of,
  digit,
  five,
  status_value,
  value_of,
  values_of,
};
ghost use Rattle.outcomes.specs.Rows.{values_at};

use crate::numbered::NumberedStates;
use cheri_model::Status;
use conditions::{Shown, StateView};
use shown_states::SeenState;
use states::Room;
use std::alloc::{AllocError, Global};

/// What an item holds in a state: a number, or the status of a hart, of a trap its cause.
#[derive(Clone, Copy, Debug, PartialEq, Eq)]
pub enum ItemValue {
    Number(u128),
    Running,
    Halted,
    Trapped(u8),
}

impl ItemValue {
    /// A status.
    fn of_status(status: Status) -> ItemValue
        ensures { result ≡ status_value status }
    {
        match status {
            Status::Running => ItemValue::Running,
            Status::Halted => ItemValue::Halted,
            Status::Trapped(trap) => ItemValue::Trapped(trap.cause),
        }
    }

    /// Its kind and its number.
    fn parts(self) -> (u32, u128)
        ensures { five result.0 result.1 ≡ code_of self }
    {
        match self {
            ItemValue::Number(number) => (0, number),
            ItemValue::Running => (1, 0),
            ItemValue::Halted => (2, 0),
            ItemValue::Trapped(cause) => (3, u128::from(cause)),
        }
    }

    /// Appends five numbers, which are those of no other value. Fails only when out of memory.
    fn push_code(self, code: &mut Vec<u32>) -> Result<(), AllocError>
        ensures { OnOk result (code.new.items ≡ code.old.items ++ code_of self) }
    {
        let (kind, number) = self.parts();
        let (number, fourth) = split(number);
        let (number, third) = split(number);
        let (first, second) = split(number);
        code.push(kind)?;
        code.push(first as u32)?;
        code.push(second)?;
        code.push(third)?;
        code.push(fourth)?;
        Ok(())
    }
}

/// A number without its last digit at base 2^32, and this digit.
fn split(number: u128) -> (u128, u32)
    ensures above { result.0 ≡ above number }
    ensures digit { result.1 ≡ digit number }
    ensures number { number < 2 ^ 128 }
{
    (number >> 32, (number & u128::from(u32::MAX)) as u32)
}

/// The numbers that stand for values, five for each: those of no other values. Fails only when out
/// of memory.
pub fn codes_of(alloc: Global, values: &[ItemValue]) -> Result<Vec<u32>, AllocError>
    ensures { IfOk result (λ code. code.items ≡ codes_of values.now) }
{
    let mut code = Vec::new(alloc);
    for value in values {
        value.push_code(&mut code)?;
    }
    Ok(code)
}

/// The status of the hart of a number; halted where there is no such hart.
fn status_of_hart<V: StateView>(view: &V, hart: u8) -> Status
    ensures { result ≡ (hart_at (V.state view.now) hart).status }
{
    if usize::from(hart) < view.hart_count() {
        view.status(usize::from(hart))
    } else {
        Status::Halted
    }
}

/// What an item holds in a state.
fn value_of<V: StateView>(shown: Shown, view: &V) -> ItemValue
    ensures { result ≡ value_of (V.state view.now) shown }
{
    match shown {
        Shown::Number(place) => ItemValue::Number(place.number(view)),
        Shown::Status(hart) => ItemValue::of_status(status_of_hart(view, hart)),
    }
}

/// What items hold in a state. Fails only when out of memory.
pub fn values_in<V: StateView>(
    alloc: Global,
    shown: &[Shown],
    view: &V,
) -> Result<Vec<ItemValue>, AllocError>
    ensures { IfOk result (λ values. values.items ≡ values_of shown.now (V.state view.now)) }
{
    let mut values = Vec::with_capacity(alloc, shown.len())?;
    for item in shown {
        values.push(value_of(*item, view))?;
    }
    Ok(values)
}

/// What items hold in the state of a number. Fails only when out of memory.
pub fn values_of<S: NumberedStates>(
    alloc: Global,
    states: &S,
    shown: &[Shown],
    number: u32,
) -> Result<Vec<ItemValue>, AllocError>
    requires { number < S.count states.now }
    ensures { IfOk result (λ values. values.items ≡ values_at (S.at states.now) shown.now number) }
{
    let mut room = Room::new();
    let state = SeenState::new(states.state(number, &mut room));
    values_in(alloc, shown, &state)
}
