//! The answer as text.
#![tactic(auto, unfolding(crate::specs::SampleTexts::runs_line))]

ghost use Rattle.std.specs.Prelude.{◌≡◌, ◌++◌, None, OnOk, Some, string_bytes};
ghost use Rattle.conditions.specs.Items.{list_of};
ghost use Rattle.report_lines.specs.Texts.{numbered};
ghost use Rattle.sample_tallies.specs.Sums.{ends_in_order, traps_in_order};
ghost use Rattle.sample_tallies.specs.Within.{is_drawable};
ghost use Rattle.sample_tallies.specs.declared.seen.Seen.{Seen};
ghost use Rattle.sample_texts.specs.SampleParts.{IsTold, drawn_of, sampled_of, shown_items};
ghost use Rattle.sample_texts.specs.SampleTexts.{ends_lines, head_lines, perhaps_seen};
ghost use Rattle.sample_texts.specs.SampleTexts.{runs_line, sample_lines, trap_lines};

use crate::drawn::write_drawn_line;
use crate::ends::write_outcomes;
use crate::properties::write_properties;
use crate::redrawn::Orders;
use crate::rows::write_rows;
use crate::sampled::Sampled;
use crate::spans::{Span, write_spans};
use crate::table::rows_of;
use crate::traps::write_traps;
use cheri_model::NoMemory;
use conditions::Items;
use report_lines::write_image_line;
use sample_tallies::{Seen, Tally};
use shown_states::Format;

/// Appends what is told of runs of which there may be none.
fn write_perhaps(
    out: &mut String,
    orders: &mut Orders<'_>,
    seen: Option<Seen>,
) -> Result<(), NoMemory>
    requires { (s : Seen) → seen ≡ Some s → is_drawable s }
    ensures written { OnOk result (string_bytes out.new
        ≡ string_bytes out.old ++ perhaps_seen orders.old seen) }
    ensures same { orders.new ≡ orders.old }
{
    match seen {
        None => out.push_str("runs=0"),
        Some(seen) => orders.write_seen(out, seen),
    }
}

/// Appends the line of how many runs there are.
fn write_runs_line(out: &mut String, tally: &Tally, numbers: &[Span]) -> Result<(), NoMemory>
    ensures { OnOk result (string_bytes out.new ≡ string_bytes out.old
        ++ runs_line tally.now.sum.runs numbers.now tally.now.sum.longest) }
{
    write!(out, "runs {} numbers=", tally.runs())?;
    write_spans(Format::Text, out, numbers)?;
    writeln!(out, " longest={}", tally.longest())
}

/// Appends the lines up to those of the traps.
fn write_head(
    out: &mut String,
    orders: &mut Orders<'_>,
    tally: &Tally,
    numbers: &[Span],
) -> Result<(), NoMemory>
    requires { IsTold orders.old.image tally.now }
    ensures written { OnOk result (string_bytes out.new ≡ string_bytes out.old
        ++ head_lines orders.old numbers.now tally.now.sum) }
    ensures same { orders.new ≡ orders.old }
{
    out.push_str("cheri-sim sample 1\n")?;
    write_image_line(out, orders.image())?;
    write_drawn_line(orders.alloc(), out, orders.drawing())?;
    write_runs_line(out, tally, numbers)?;
    out.push_str("cut ")?;
    write_perhaps(out, orders, tally.cut())?;
    out.push_str("\nhung ")?;
    write_perhaps(out, orders, tally.hung())?;
    out.push_str("\n")?;
    Ok(())
}

/// Appends the lines of the traps.
fn write_trap_lines(
    out: &mut String,
    orders: &mut Orders<'_>,
    tally: &Tally,
) -> Result<(), NoMemory>
    requires { IsTold orders.old.image tally.now }
    ensures written { OnOk result (string_bytes out.new ≡ string_bytes out.old
        ++ trap_lines orders.old (traps_in_order tally.now.sum)) }
    ensures same { orders.new ≡ orders.old }
{
    let traps = tally.traps(orders.alloc())?;
    let told = traps.as_slice();
    writeln!(out, "traps {}", told.len())?;
    write_traps(Format::Text, out, orders, told)
}

/// Appends the lines of outcomes.
fn write_outcome_lines(
    out: &mut String,
    orders: &mut Orders<'_>,
    tally: &Tally,
) -> Result<(), NoMemory>
    requires { IsTold orders.old.image tally.now }
    ensures written { OnOk result (string_bytes out.new ≡ string_bytes out.old
        ++ ends_lines orders.old None (ends_in_order tally.now.sum)) }
    ensures same { orders.new ≡ orders.old }
{
    let order = tally.order(orders.alloc())?;
    let numbers = order.as_slice();
    writeln!(out, "outcomes {}", numbers.len())?;
    write_outcomes(Format::Text, out, orders, tally, numbers)
}

/// Appends the lines of rows.
fn write_shown_lines(
    out: &mut String,
    orders: &mut Orders<'_>,
    tally: &Tally,
    items: &Items<'_>,
) -> Result<(), NoMemory>
    requires { IsTold orders.old.image tally.now }
    ensures written { OnOk result (string_bytes out.new ≡ string_bytes out.old
        ++ ends_lines orders.old (Some (list_of items.now)) (ends_in_order tally.now.sum)) }
    ensures same { orders.new ≡ orders.old }
{
    let rows = rows_of(orders, tally, items.shown.as_slice())?;
    let told = rows.as_slice();
    writeln!(out, "shown {}", told.len())?;
    let names = items.names.as_slice();
    write_rows(Format::Text, out, orders, names, told)
}

/// Appends the lines of outcomes, or of rows where items are shown.
fn write_ends_lines(
    out: &mut String,
    orders: &mut Orders<'_>,
    tally: &Tally,
    items: Option<&Items<'_>>,
) -> Result<(), NoMemory>
    requires { IsTold orders.old.image tally.now }
    ensures written { OnOk result (string_bytes out.new ≡ string_bytes out.old
        ++ ends_lines orders.old (shown_items items.entry) (ends_in_order tally.now.sum)) }
    ensures same { orders.new ≡ orders.old }
{
    match items {
        None => write_outcome_lines(out, orders, tally),
        Some(items) => write_shown_lines(out, orders, tally, items),
    }
}

/// Appends the whole text.
pub(crate) fn write_text(
    out: &mut String,
    orders: &mut Orders<'_>,
    sampled: Sampled<'_, '_>,
) -> Result<(), NoMemory>
    requires told { IsTold orders.old.image sampled.tally.now }
    requires drawn { orders.old ≡ drawn_of (sampled_of sampled) }
    ensures { OnOk result (string_bytes out.new
        ≡ string_bytes out.old ++ sample_lines (sampled_of sampled.entry)) }
{
    write_head(out, orders, sampled.tally, sampled.numbers)?;
    write_trap_lines(out, orders, sampled.tally)?;
    write_ends_lines(out, orders, sampled.tally, sampled.items)?;
    write_properties(orders.alloc(), Format::Text, out, sampled.properties)?;
    out.push_str("end\n")?;
    Ok(())
}
