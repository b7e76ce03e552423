//! Outcomes and rows, with the orders that lead to them.
#![tactic(auto, using(crate::proofs::ToldLemmas::told))]

ghost use Rattle.std.specs.Prelude.{◌<◌, IfOk, string_bytes};
ghost use Rattle.outcome_texts.specs.Told.{
  AreBelow,
  AreOutcomesTold,
  AreRowsBelow,
  AreRowsTold,
  IsOutcomeTold,
  IsRowTold,
  IsWitnessText,
};
ghost use Rattle.states.specs.Kept.{count};

use cheri_model::NoMemory;
use conditions::Shown;
use order_texts::write_order;
use outcomes::{ItemValue, Row, values_of};
use states::Kept;
use std::alloc::{AllocError, Global};

/// An outcome: the number of its state, and its witness as text.
#[derive(Drop)]
pub struct Outcome {
    pub state: u32,
    pub order: String,
}

/// A row of values that outcomes have: how many do, and the witness of the first as text.
#[derive(Drop)]
pub struct ShownRow {
    pub values: Vec<ItemValue>,
    pub states: usize,
    pub order: String,
}

/// The witness of a kept state as text. Fails only when out of memory.
fn witness_text(alloc: Global, kept: &Kept, number: u32) -> Result<String, NoMemory>
    requires { number < count kept.now }
    ensures { IfOk result (λ text. IsWitnessText kept.now number (string_bytes text)) }
{
    let order = kept.witness(alloc, number)?;
    let mut text = String::new(alloc);
    write_order(&mut text, order.as_slice())?;
    Ok(text)
}

/// An outcome with its order.
fn outcome_told(alloc: Global, kept: &Kept, state: u32) -> Result<Outcome, NoMemory>
    requires { state < count kept.now }
    ensures { IfOk result (IsOutcomeTold kept.now state) }
{
    let order = witness_text(alloc, kept, state)?;
    Ok(Outcome { state, order })
}

/// Outcomes with their orders, one by one. Fails only when out of memory.
pub fn outcomes_told(
    alloc: Global,
    kept: &Kept,
    numbers: &[u32],
) -> Result<Vec<Outcome>, AllocError>
    requires { AreBelow (count kept.now) numbers.now }
    ensures { IfOk result (λ told. AreOutcomesTold kept.now numbers.now told.items) }
{
    let mut told = Vec::with_capacity(alloc, numbers.len())?;
    for state in numbers {
        told.push(outcome_told(alloc, kept, *state)?)?;
    }
    Ok(told)
}

/// A row with its values and its order.
fn row_told(alloc: Global, kept: &Kept, shown: &[Shown], row: &Row) -> Result<ShownRow, AllocError>
    requires { row.now.first < count kept.now }
    ensures { IfOk result (IsRowTold kept.now shown.now row.now) }
{
    let values = values_of(alloc, kept, shown, row.first)?;
    let order = witness_text(alloc, kept, row.first)?;
    Ok(ShownRow {
        values,
        states: row.states,
        order,
    })
}

/// Rows with their values and their orders, one by one. Fails only when out of memory.
pub fn rows_told(
    alloc: Global,
    kept: &Kept,
    shown: &[Shown],
    rows: &[Row],
) -> Result<Vec<ShownRow>, AllocError>
    requires { AreRowsBelow (count kept.now) rows.now }
    ensures { IfOk result (λ told. AreRowsTold kept.now shown.now rows.now told.items) }
{
    let mut told = Vec::with_capacity(alloc, rows.len())?;
    for row in rows {
        told.push(row_told(alloc, kept, shown, row)?)?;
    }
    Ok(told)
}
