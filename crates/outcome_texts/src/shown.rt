//! Outcomes as rows of values.
#![tactic(auto, unfolding(crate::proofs::Unfold::shown))]

ghost use Rattle.std.specs.Prelude.{◌≡◌, ◌++◌, IfOk, OnOk, map, string_bytes};
ghost use Rattle.serde_json.specs.View.{view as data_of};
ghost use Rattle.outcome_texts.specs.OutcomeParts.{
  row_opening,
  shown_json,
  shown_lines,
  shown_opening,
  shown_whole,
};
ghost use Rattle.outcome_texts.specs.ReducedTexts.{said_row_data, said_row_line};
ghost use Rattle.report_lines.specs.JsonText.{item_text};
ghost use Rattle.report_lines.specs.Texts.{numbered};

use crate::heads::{Head, write_head_lines, write_json_head};
use crate::told::ShownRow;
use cheri_model::NoMemory;
use outcomes::{items_json, write_items};
use report_lines::{write_comma, write_json_value};
use serde_json::{Value, json};
use shown_states::Format;
use std::alloc::Global;

/// Appends what stands before the items of a row: its number, and how many outcomes have it, where
/// they are counted.
fn write_opening(
    out: &mut String,
    reduced: bool,
    number: usize,
    states: usize,
) -> Result<(), NoMemory>
    ensures { OnOk result (string_bytes out.new ≡ string_bytes out.old
        ++ row_opening reduced number states) }
{
    if reduced {
        return write!(out, "{number}");
    }
    write!(out, "{number} states={states}")
}

/// Appends the line of a row, by its number.
fn write_row(
    out: &mut String,
    reduced: bool,
    names: &[&str],
    number: usize,
    row: &ShownRow,
) -> Result<(), NoMemory>
    ensures { OnOk result (string_bytes out.new ≡ string_bytes out.old
        ++ said_row_line reduced (map (λ name. name.now) names.now) number row.now) }
{
    write_opening(out, reduced, number, row.states)?;
    write_items(out, names, row.values.as_slice())?;
    out.push_str(" order=")?;
    out.push_str(row.order.as_str())?;
    out.push_str("\n")
}

/// Appends the lines of rows, which say how many outcomes they have where nothing was left out. Fails
/// only when out of memory.
pub fn write_rows(
    out: &mut String,
    reduced: bool,
    names: &[&str],
    rows: &[ShownRow],
) -> Result<(), NoMemory>
    ensures { OnOk result (string_bytes out.new ≡ string_bytes out.old
        ++ numbered (said_row_line reduced (map (λ name. name.now) names.now)) 0 rows.now) }
{
    for (number, row) in rows.iter().enumerate() {
        write_row(out, reduced, names, number, row)?;
    }
    Ok(())
}

/// Appends the whole text.
fn write_text(
    out: &mut String,
    head: Head<'_>,
    outcomes: usize,
    names: &[&str],
    rows: &[ShownRow],
) -> Result<(), NoMemory>
    ensures { OnOk result (string_bytes out.new ≡ string_bytes out.old
        ++ shown_lines head.entry.reduced head.entry.complete head.entry.image.now
        head.entry.states head.entry.endless.now outcomes
        (map (λ name. name.now) names.now) rows.now) }
{
    write_head_lines(out, head, outcomes)?;
    writeln!(out, "shown {}", rows.len())?;
    write_rows(out, head.reduced, names, rows)?;
    out.push_str("end\n")
}

/// A row.
fn row_json(alloc: Global, reduced: bool, names: &[&str], row: &ShownRow) -> Result<Value, NoMemory>
    ensures { IfOk result (λ v. data_of v
        ≡ said_row_data reduced (map (λ name. name.now) names.now) row.now) }
{
    let values = items_json(alloc, names, row.values.as_slice())?;
    let order = row.order.clone()?;
    if reduced {
        return json!(in alloc; {"order": order, "values": values});
    }
    let states = row.states;
    json!(in alloc; {"order": order, "states": states, "values": values})
}

/// Appends a row of a list, by its number.
fn write_row_json(
    alloc: Global,
    out: &mut String,
    reduced: bool,
    names: &[&str],
    number: usize,
    row: &ShownRow,
) -> Result<(), NoMemory>
    ensures { OnOk result (string_bytes out.new ≡ string_bytes out.old
        ++ item_text (said_row_data reduced (map (λ name. name.now) names.now)) number row.now) }
{
    write_comma(out, number > 0)?;
    write_json_value(alloc, out, row_json(alloc, reduced, names, row)?)
}

/// Appends rows in JSON, as items of a list. Fails only when out of memory.
pub fn write_rows_json(
    alloc: Global,
    out: &mut String,
    reduced: bool,
    names: &[&str],
    rows: &[ShownRow],
) -> Result<(), NoMemory>
    ensures { OnOk result (string_bytes out.new ≡ string_bytes out.old
        ++ numbered (item_text (said_row_data reduced (map (λ name. name.now) names.now))) 0
        rows.now) }
{
    for (number, row) in rows.iter().enumerate() {
        write_row_json(alloc, out, reduced, names, number, row)?;
    }
    Ok(())
}

/// The member of what was forgotten, if anything was, and the beginning of the rows.
fn shown_opening(reduced: bool) -> &'static str
    ensures { result.now ≡ shown_opening reduced }
{
    if reduced {
        ",\"reduced\":[\"registers\"],\"shown\":["
    } else {
        ",\"shown\":["
    }
}

/// Appends the object's line.
fn write_json(
    alloc: Global,
    out: &mut String,
    head: Head<'_>,
    names: &[&str],
    rows: &[ShownRow],
) -> Result<(), NoMemory>
    ensures { OnOk result (string_bytes out.new ≡ string_bytes out.old
        ++ shown_json head.entry.reduced head.entry.complete head.entry.image.now
        head.entry.states head.entry.endless.now
        (map (λ name. name.now) names.now) rows.now) }
{
    write_json_head(alloc, out, head)?;
    out.push_str(shown_opening(head.reduced))?;
    write_rows_json(alloc, out, head.reduced, names, rows)?;
    writeln!(out, "],\"states\":{}}}", head.states)
}

/// Outcomes as rows of values; and that registers were forgotten, where they were. Fails only when
/// out of memory.
pub fn shown_text(
    alloc: Global,
    format: Format,
    head: Head<'_>,
    outcomes: usize,
    names: &[&str],
    rows: &[ShownRow],
) -> Result<String, NoMemory>
    ensures { IfOk result (λ text. string_bytes text
        ≡ shown_whole format head.entry.reduced head.entry.complete head.entry.image.now
        head.entry.states head.entry.endless.now outcomes
        (map (λ name. name.now) names.now) rows.now) }
{
    let mut out = String::new(alloc);
    match format {
        Format::Text => write_text(&mut out, head, outcomes, names, rows)?,
        Format::Json => write_json(alloc, &mut out, head, names, rows)?,
    }
    Ok(out)
}
