//! Outcomes as states.

ghost use Rattle.std.specs.Prelude.{◌≡◌, ◌++◌, [], true, IfOk, OnOk, string_bytes};
ghost use Rattle.alike_outcomes.specs.AlikeOutcomes.{AreTaken};
ghost use Rattle.alike_outcomes.specs.AlikeTexts.{alike_listed, left_part, left_text};
ghost use Rattle.cheri_model.specs.runs.Machine.{opening_state};
ghost use Rattle.cheri_model.specs.runs.Replay.{is_legal};
ghost use Rattle.report_lines.specs.Texts.{numbered};
ghost use Rattle.schedules.specs.Schedules.{AreAllowed};

use crate::heads::{Head, write_head_lines, write_json_head};
use cheri_model::{Image, NoMemory, Op};
use found_texts::replayed;
use order_texts::write_order;
use outcome_texts::write_ordered;
use reduced_texts::write_reduced_member;
use shown_states::Format;
use std::alloc::Global;

/// Appends an outcome by its number: an order, and the state that it leaves.
fn write_left(
    alloc: Global,
    format: Format,
    out: &mut String,
    number: usize,
    image: &Image,
    order: &[Op],
) -> Result<(), NoMemory>
    requires allowed { AreAllowed [] order.now }
    requires legal { is_legal image.now (opening_state image.now) order.now ≡ true }
    ensures { OnOk result (string_bytes out.new ≡ string_bytes out.old
        ++ left_part format image.now number order.now) }
{
    let state = replayed(alloc, image, order)?;
    let mut text = String::new(alloc);
    write_order(&mut text, order)?;
    write_ordered(alloc, format, out, number, &text, &state)
}

/// Appends outcomes, one by one.
fn write_outcomes(
    alloc: Global,
    format: Format,
    out: &mut String,
    image: &Image,
    orders: &[Vec<Op>],
) -> Result<(), NoMemory>
    requires { AreTaken image.now orders.now }
    ensures { OnOk result (string_bytes out.new ≡ string_bytes out.old
        ++ numbered (left_text format image.now) 0 orders.now) }
{
    for (number, order) in orders.iter().enumerate() {
        write_left(alloc, format, out, number, image, order.as_slice())?;
    }
    Ok(())
}

/// Appends the lines of the answer.
fn write_lines(
    alloc: Global,
    out: &mut String,
    head: Head<'_>,
    orders: &[Vec<Op>],
) -> Result<(), NoMemory>
    requires { AreTaken head.image.now orders.now }
    ensures { OnOk result (string_bytes out.new ≡ string_bytes out.old
        ++ alike_listed Format.Text head.entry.left_out head.entry.complete head.entry.image.now
        head.entry.states orders.now) }
{
    write_head_lines(alloc, out, head)?;
    write_outcomes(alloc, Format::Text, out, head.image, orders)?;
    out.push_str("end\n")?;
    Ok(())
}

/// Appends the object's line.
fn write_json(
    alloc: Global,
    out: &mut String,
    head: Head<'_>,
    orders: &[Vec<Op>],
) -> Result<(), NoMemory>
    requires { AreTaken head.image.now orders.now }
    ensures { OnOk result (string_bytes out.new ≡ string_bytes out.old
        ++ alike_listed Format.Json head.entry.left_out head.entry.complete head.entry.image.now
        head.entry.states orders.now) }
{
    write_json_head(alloc, out, head)?;
    out.push_str(",\"outcomes\":[")?;
    write_outcomes(alloc, Format::Json, out, head.image, orders)?;
    out.push_str("]")?;
    write_reduced_member(alloc, out, Some(head.left_out))?;
    writeln!(out, ",\"states\":{}}}", head.states)
}

/// Outcomes as states, each with the order that leads to it. Fails only when out of memory.
pub(crate) fn listed_text(
    alloc: Global,
    format: Format,
    head: Head<'_>,
    orders: &[Vec<Op>],
) -> Result<String, NoMemory>
    requires { AreTaken head.image.now orders.now }
    ensures { IfOk result (λ text. string_bytes text
        ≡ alike_listed format head.entry.left_out head.entry.complete head.entry.image.now
        head.entry.states orders.now) }
{
    let mut out = String::new(alloc);
    match format {
        Format::Text => write_lines(alloc, &mut out, head, orders)?,
        Format::Json => write_json(alloc, &mut out, head, orders)?,
    }
    Ok(out)
}
