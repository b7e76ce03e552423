//! The orders that lead to outcomes.

ghost use Rattle.std.specs.Prelude.{◌≡◌, ◌<◌, IfOk, Some, true};
ghost use Rattle.alike_outcomes.specs.AlikeOutcomes.{AreFinal, AreLeftBy, IsLeftBy};
ghost use Rattle.cheri_model.specs.runs.Machine.{MachineState};
ghost use Rattle.forgotten_states.specs.Surveys.{at, count};
ghost use Rattle.outcomes.specs.Outcomes.{is_final};

use cheri_model::Op;
use forgotten_states::Survey;
use std::alloc::{AllocError, Global};

/// The order that leads to a node in which no hart runs.
fn order_left(alloc: Global, survey: &Survey<'_>, node: u32) -> Result<Vec<Op>, AllocError>
    requires there { node < count survey.now }
    requires stopped { (s : MachineState) → at survey.now node ≡ Some s → is_final s ≡ true }
    ensures { IfOk result (λ order. IsLeftBy survey.now node order.items) }
{
    // Its clause says that these are the first nodes, or all.
    let _count = survey.len();
    let order = survey.order_to(alloc, node)?;
    Ok(order)
}

/// The orders that lead to nodes in which no hart runs, one by one. Fails only when out of memory, or
/// of numbers past 2^32.
pub(crate) fn orders_to(
    alloc: Global,
    survey: &Survey<'_>,
    outcomes: &[u32],
) -> Result<Vec<Vec<Op>>, AllocError>
    requires { AreFinal survey.now outcomes.now }
    ensures { IfOk result (λ orders. AreLeftBy survey.now outcomes.now orders.items) }
{
    let mut orders = Vec::with_capacity(alloc, outcomes.len())?;
    for node in outcomes {
        orders.push(order_left(alloc, survey, *node)?)?;
    }
    Ok(orders)
}
