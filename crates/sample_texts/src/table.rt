//! The rows of values that ends show.

ghost use Rattle.std.specs.Prelude.{◌≡◌, ◌*◌, ◌<◌, All, IfOk, OnOk, Some, length, map};
ghost use Rattle.std.specs.Prelude.{slice_get};
ghost use Rattle.sample_tallies.specs.Sums.{ends_in_order};
ghost use Rattle.sample_tallies.specs.Tables.{with_entry};
ghost use Rattle.sample_tallies.specs.Within.{is_drawable};
ghost use Rattle.sample_texts.specs.SampleParts.{IsTold};
ghost use Rattle.sample_texts.specs.ShownRows.{AreNumbered, rows_of as parts_of, same_row};
ghost use Rattle.sample_texts.specs.ShownRows.{shown_part, shown_rows};
ghost use Rattle.sample_texts.specs.declared.table.ShownRow.{ShownRow};

use crate::ends::load_end;
use crate::redrawn::Orders;
use cheri_model::NoMemory;
use conditions::Shown;
use interner::Interner;
use outcomes::{ItemValue, codes_of, values_in};
use sample_tallies::{Seen, Tally};
use std::alloc::{AllocError, Global};

/// A row of values that ends have, and the runs that ended so.
#[derive(Drop)]
pub(crate) struct ShownRow {
    pub values: Vec<ItemValue>,
    pub seen: Seen,
}

/// How many numbers stand for so many values.
fn width_of(values: usize) -> Result<usize, NoMemory>
    ensures { IfOk result (λ width. width ≡ 5 * values) }
{
    match values.checked_mul(5) {
        Some(width) => Ok(width),
        None => Err(AllocError),
    }
}

/// Adds the runs of an end to the row of its values, which is the last one where there was none.
/// The numbers that stand for the values of rows are in `codes`. Fails only when out of memory or
/// of numbers, or where a count reaches 2^64.
fn see(
    alloc: Global,
    codes: &mut Interner,
    rows: &mut Vec<ShownRow>,
    row: ShownRow,
) -> Result<(), NoMemory>
    requires width { 5 * length row.values.items ≡ codes.old.width }
    requires numbered { AreNumbered codes.old rows.old.items }
    ensures numbered { OnOk result (AreNumbered codes.new rows.new.items) }
    ensures width { codes.new.width ≡ codes.old.width }
    ensures rows { OnOk result (parts_of rows.new.items
        ≡ with_entry same_row (parts_of rows.old.items) (shown_part row)) }
{
    let code = codes_of(alloc, row.values.as_slice())?;
    let found = codes.insert(code.as_slice())?;
    // Its clause says that no row is there twice.
    let _count = codes.len();
    let number = found as usize;
    if number < rows.len() {
        let seen = rows[number].seen.and(row.seen)?;
        rows[number].seen = seen;
        return Ok(());
    }
    rows.push(row)?;
    Ok(())
}

/// The rows of values of ends of a tally, taken in this order of their numbers.
fn see_ends(
    orders: &Orders<'_>,
    tally: &Tally,
    order: &[u32],
    shown: &[Shown],
) -> Result<Vec<ShownRow>, NoMemory>
    requires told { IsTold orders.now.image tally.now }
    requires sorted { map (slice_get tally.now.sum.ends) order.now
        ≡ map (λ end. Some end) (ends_in_order tally.now.sum) }
    requires within { All (λ number. number < length tally.now.sum.ends) order.now }
    ensures { IfOk result (λ rows. parts_of rows.items
        ≡ shown_rows shown.now (ends_in_order tally.now.sum)) }
{
    let alloc = orders.alloc();
    let mut state = orders.blank()?;
    let mut codes = Interner::new(alloc, width_of(shown.len())?);
    let mut rows = Vec::new(alloc);
    for number in order {
        load_end(&mut state, tally, *number);
        let values = values_in(alloc, shown, &state)?;
        let seen = tally.end_seen(*number);
        see(alloc, &mut codes, &mut rows, ShownRow { values, seen })?;
    }
    Ok(rows)
}

/// Each distinct row of values that items hold in ends of a tally, in the order of their first
/// runs.
pub(crate) fn rows_of(
    orders: &Orders<'_>,
    tally: &Tally,
    shown: &[Shown],
) -> Result<Vec<ShownRow>, NoMemory>
    requires { IsTold orders.now.image tally.now }
    ensures rows { IfOk result (λ rows. parts_of rows.items
        ≡ shown_rows shown.now (ends_in_order tally.now.sum)) }
    ensures within { IfOk result (λ rows.
        All (λ (row : ShownRow). is_drawable row.seen) rows.items) }
{
    let order = tally.order(orders.alloc())?;
    let rows = see_ends(orders, tally, order.as_slice(), shown)?;
    Ok(rows)
}
