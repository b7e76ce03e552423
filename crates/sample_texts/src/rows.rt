//! Rows of values.
#![tactic(auto, using(crate::proofs::Floats::floatless), unfolding(crate::proofs::Unfold::rows))]

ghost use Rattle.std.specs.Prelude.{◌≡◌, ◌++◌, All, IfOk, OnOk, map, string_bytes};
ghost use Rattle.serde_json.specs.View.{view as data_of};
ghost use Rattle.report_lines.specs.Texts.{numbered};
ghost use Rattle.sample_tallies.specs.Within.{is_drawable};
ghost use Rattle.sample_texts.specs.SampleData.{row_data};
ghost use Rattle.sample_texts.specs.SampleJson.{row_part};
ghost use Rattle.sample_texts.specs.SampleTexts.{row_line};
ghost use Rattle.sample_texts.specs.ShownRows.{rows_of as parts_of, shown_part};
ghost use Rattle.sample_texts.specs.declared.table.ShownRow.{ShownRow};

use crate::redrawn::Orders;
use crate::table::ShownRow;
use cheri_model::NoMemory;
use outcomes::{items_json, write_items};
use report_lines::{write_comma, write_json_value};
use serde_json::{Value, json};
use shown_states::Format;

/// Appends the line of a row, by its place.
fn write_line(
    out: &mut String,
    orders: &mut Orders<'_>,
    names: &[&str],
    place: usize,
    row: &ShownRow,
) -> Result<(), NoMemory>
    requires { is_drawable row.now.seen }
    ensures written { OnOk result (string_bytes out.new ≡ string_bytes out.old
        ++ row_line orders.old (map (λ name. name.now) names.now) place (shown_part row.now)) }
    ensures same { orders.new ≡ orders.old }
{
    write!(
        out,
        "{place} runs={} first={}",
        row.seen.runs, row.seen.first
    )?;
    write_items(out, names, row.values.as_slice())?;
    out.push_str(" order=")?;
    orders.write(out, row.seen.first)?;
    out.push_str("\n")
}

/// A row with the order of its first run.
#[tactic(auto, unfolding(crate::specs::SampleData::row_data))]
fn row_json(orders: &mut Orders<'_>, names: &[&str], row: &ShownRow) -> Result<Value, NoMemory>
    requires { is_drawable row.now.seen }
    ensures value { IfOk result (λ v. data_of v
        ≡ row_data orders.old (map (λ name. name.now) names.now) (shown_part row.now)) }
    ensures same { orders.new ≡ orders.old }
{
    let order = orders.text(row.seen.first)?;
    let values = items_json(orders.alloc(), names, row.values.as_slice())?;
    let (runs, first) = (row.seen.runs, row.seen.first);
    json!(in orders.alloc(); {"first": first, "order": order, "runs": runs, "values": values})
}

/// Appends the object of a row, by its place.
fn write_object(
    out: &mut String,
    orders: &mut Orders<'_>,
    names: &[&str],
    place: usize,
    row: &ShownRow,
) -> Result<(), NoMemory>
    requires { is_drawable row.now.seen }
    ensures written { OnOk result (string_bytes out.new ≡ string_bytes out.old ++ row_part
        Format.Json orders.old (map (λ name. name.now) names.now) place (shown_part row.now)) }
    ensures same { orders.new ≡ orders.old }
{
    write_comma(out, place > 0)?;
    let row = row_json(orders, names, row)?;
    write_json_value(orders.alloc(), out, row)
}

/// Appends a row, by its place.
fn write_row(
    format: Format,
    out: &mut String,
    orders: &mut Orders<'_>,
    names: &[&str],
    place: usize,
    row: &ShownRow,
) -> Result<(), NoMemory>
    requires { is_drawable row.now.seen }
    ensures written { OnOk result (string_bytes out.new ≡ string_bytes out.old ++ row_part
        format orders.old (map (λ name. name.now) names.now) place (shown_part row.now)) }
    ensures same { orders.new ≡ orders.old }
{
    match format {
        Format::Text => write_line(out, orders, names, place, row),
        Format::Json => write_object(out, orders, names, place, row),
    }
}

/// Appends rows, one by one.
pub(crate) fn write_rows(
    format: Format,
    out: &mut String,
    orders: &mut Orders<'_>,
    names: &[&str],
    rows: &[ShownRow],
) -> Result<(), NoMemory>
    requires { All (λ (row : ShownRow). is_drawable row.seen) rows.now }
    ensures written { OnOk result (string_bytes out.new ≡ string_bytes out.old
        ++ numbered (row_part format orders.old (map (λ name. name.now) names.now)) 0
        (parts_of rows.now)) }
    ensures same { orders.new ≡ orders.old }
{
    for (place, row) in rows.iter().enumerate() {
        write_row(format, out, orders, names, place, row)?;
    }
    Ok(())
}
