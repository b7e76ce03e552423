//! Rows with the orders that lead to them.

ghost use Rattle.std.specs.Prelude.{◌≡◌, ◌<◌, Some, IfOk, true};
ghost use Rattle.asked_registers.specs.Asked.{HasAsked, items_ask};
ghost use Rattle.cheri_model.specs.runs.Machine.{MachineState};
ghost use Rattle.forgotten_outcomes.specs.ShownStates.{AreFinalRows, AreRowsTold, IsRowTold};
ghost use Rattle.forgotten_states.specs.Surveys.{at, count};
ghost use Rattle.hart_order.specs.GroupedTurns.{keeps_number};
ghost use Rattle.hart_symmetry.specs.Named.{NamedStay};
ghost use Rattle.named_items.specs.NamedItems.{items_name};
ghost use Rattle.outcomes.specs.Outcomes.{is_final};

use crate::searching::Nodes;
use cheri_model::NoMemory;
use conditions::Shown;
use forgotten_states::Survey;
use order_texts::write_order;
use outcome_texts::ShownRow;
use outcomes::{Row, values_of};
use std::alloc::Global;

/// A row with its values, and the order to the first state that has them.
fn row_told(
    alloc: Global,
    survey: &Survey<'_>,
    shown: &[Shown],
    row: Row,
) -> Result<ShownRow, NoMemory>
    requires asked { HasAsked survey.now.live.asked (items_ask shown.now) }
    requires named { NamedStay (keeps_number survey.now.groups) (items_name shown.now) }
    requires there { row.first < count survey.now }
    requires stopped { (s : MachineState) → at survey.now row.first ≡ Some s → is_final s ≡ true }
    ensures { IfOk result (IsRowTold survey.now shown.now row) }
{
    // Its clause says that these registers matter.
    let _count = survey.len();
    let values = values_of(alloc, &Nodes { survey }, shown, row.first)?;
    let order = survey.order_to(alloc, row.first)?;
    let mut text = String::new(alloc);
    write_order(&mut text, order.as_slice())?;
    Ok(ShownRow {
        values,
        states: row.states,
        order: text,
    })
}

/// Rows with their values and their orders, one by one, where each hart that items name keeps its
/// number. Fails only when out of memory.
pub fn rows_told(
    alloc: Global,
    survey: &Survey<'_>,
    shown: &[Shown],
    rows: &[Row],
) -> Result<Vec<ShownRow>, NoMemory>
    requires asked { HasAsked survey.now.live.asked (items_ask shown.now) }
    requires named { NamedStay (keeps_number survey.now.groups) (items_name shown.now) }
    requires rows { AreFinalRows survey.now rows.now }
    ensures { IfOk result (λ told. AreRowsTold survey.now shown.now rows.now told.items) }
{
    let mut told = Vec::with_capacity(alloc, rows.len())?;
    for row in rows {
        told.push(row_told(alloc, survey, shown, *row)?)?;
    }
    Ok(told)
}
