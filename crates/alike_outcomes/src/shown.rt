//! Outcomes as rows of values.

ghost use Rattle.std.specs.Prelude.{◌≡◌, ◌++◌, IfOk, OnOk, map, string_bytes};
ghost use Rattle.alike_outcomes.specs.AlikeTexts.{alike_shown};

use crate::heads::{Head, write_head_lines, write_json_head};
use cheri_model::NoMemory;
use outcome_texts::{ShownRow, write_rows, write_rows_json};
use reduced_texts::write_reduced_member;
use shown_states::Format;
use std::alloc::Global;

/// Appends the lines of the answer.
#[tactic(auto, unfolding(crate::specs::AlikeTexts::alike_shown_text))]
fn write_lines(
    alloc: Global,
    out: &mut String,
    head: Head<'_>,
    names: &[&str],
    rows: &[ShownRow],
) -> Result<(), NoMemory>
    ensures { OnOk result (string_bytes out.new ≡ string_bytes out.old
        ++ alike_shown Format.Text head.entry.left_out head.entry.complete head.entry.image.now
        head.entry.states (map (λ name. name.now) names.now) rows.now) }
{
    write_head_lines(alloc, out, head)?;
    writeln!(out, "shown {}", rows.len())?;
    write_rows(out, true, names, rows)?;
    out.push_str("end\n")
}

/// Appends the object's line.
fn write_json(
    alloc: Global,
    out: &mut String,
    head: Head<'_>,
    names: &[&str],
    rows: &[ShownRow],
) -> Result<(), NoMemory>
    ensures { OnOk result (string_bytes out.new ≡ string_bytes out.old
        ++ alike_shown Format.Json head.entry.left_out head.entry.complete head.entry.image.now
        head.entry.states (map (λ name. name.now) names.now) rows.now) }
{
    write_json_head(alloc, out, head)?;
    write_reduced_member(alloc, out, Some(head.left_out))?;
    out.push_str(",\"shown\":[")?;
    write_rows_json(alloc, out, true, names, rows)?;
    writeln!(out, "],\"states\":{}}}", head.states)
}

/// Outcomes as rows of values, each with the order that leads to the first one that has it. Fails
/// only when out of memory.
pub(crate) fn shown_text(
    alloc: Global,
    format: Format,
    head: Head<'_>,
    names: &[&str],
    rows: &[ShownRow],
) -> Result<String, NoMemory>
    ensures { IfOk result (λ text. string_bytes text
        ≡ alike_shown format head.entry.left_out head.entry.complete head.entry.image.now
        head.entry.states (map (λ name. name.now) names.now) rows.now) }
{
    let mut out = String::new(alloc);
    match format {
        Format::Text => write_lines(alloc, &mut out, head, names, rows)?,
        Format::Json => write_json(alloc, &mut out, head, names, rows)?,
    }
    Ok(out)
}
