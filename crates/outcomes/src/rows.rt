//! The rows of values that outcomes show.

ghost use Rattle.std.specs.Prelude.{◌≡◌, ℕ, ◌*◌, ◌<◌, ◌≤◌, Some, IfOk, OnOk, length, slice_get};
ghost use Rattle.outcomes.specs.Items.{codes_of};
ghost use Rattle.outcomes.specs.declared.rows.Row.{Row};
ghost use Rattle.outcomes.specs.Rows.{AreRows, counted, values_at};
ghost use Rattle.outcomes.specs.Outcomes.{AreOutcomesBelow};

use crate::items::{codes_of, values_of};
use crate::numbered::NumberedStates;
use conditions::Shown;
use interner::Interner;
use std::alloc::{AllocError, Global};

/// A row of values that outcomes have: the first outcome that has it, and how many do.
#[derive(Clone, Copy, Debug, PartialEq, Eq)]
pub struct Row {
    pub first: u32,
    pub states: usize,
}

/// The numbers that stand for the values of the state of a number.
fn row_code<S: NumberedStates>(
    alloc: Global,
    states: &S,
    shown: &[Shown],
    number: u32,
) -> Result<Vec<u32>, AllocError>
    requires { number < S.count states.now }
    ensures { IfOk result (λ code.
        code.items ≡ codes_of (values_at (S.at states.now) shown.now number)) }
{
    let values = values_of(alloc, states, shown, number)?;
    codes_of(alloc, values.as_slice())
}

/// How many numbers stand for the values of an outcome; 0 where there is none.
fn row_width<S: NumberedStates>(
    alloc: Global,
    states: &S,
    shown: &[Shown],
    outcomes: &[u32],
) -> Result<usize, AllocError>
    requires { AreOutcomesBelow (S.at states.now) (S.count states.now) outcomes.now }
    ensures { IfOk result (λ width. 0 < length outcomes.now → width ≡ 5 * length shown.now) }
{
    match outcomes.first() {
        Some(first) => {
            let code = row_code(alloc, states, shown, *first)?;
            Ok(code.as_slice().len())
        }
        None => Ok(0),
    }
}

/// Counts an outcome in the row of this number, or in a new one. Each row was counted for fewer
/// than `most`, so that no count overflows.
fn count(rows: &mut Vec<Row>, number: u32, outcome: u32, most: usize) -> Result<(), AllocError>
    requires within { number ≤ length rows.old.items }
    requires room { (k : ℕ) (r : Row) → slice_get rows.old.items k ≡ Some r → r.states < most }
    ensures { OnOk result (rows.new.items ≡ counted number outcome rows.old.items) }
{
    let number = number as usize;
    if number < rows.len() {
        rows[number].states += 1;
        return Ok(());
    }
    rows.push(Row {
        first: outcome,
        states: 1,
    })?;
    Ok(())
}

/// The distinct rows of values that items hold in outcomes, in the order of the first outcomes that
/// have them. Fails only when out of memory, or of numbers past 2^32.
pub fn rows_of<S: NumberedStates>(
    alloc: Global,
    states: &S,
    shown: &[Shown],
    outcomes: &[u32],
) -> Result<Vec<Row>, AllocError>
    requires outcomes { AreOutcomesBelow (S.at states.now) (S.count states.now) outcomes.now }
    ensures { IfOk result (λ rows.
        AreRows (values_at (S.at states.now) shown.now) outcomes.now rows.items) }
{
    let width = row_width(alloc, states, shown, outcomes)?;
    let mut codes = Interner::new(alloc, width);
    let mut rows = Vec::new(alloc);
    for outcome in outcomes {
        let code = row_code(alloc, states, shown, *outcome)?;
        let number = codes.insert(code.as_slice())?;
        // Its clause says that no two rows are the same.
        let _count = codes.len();
        count(&mut rows, number, *outcome, outcomes.len())?;
    }
    Ok(rows)
}
