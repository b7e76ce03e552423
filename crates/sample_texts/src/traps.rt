//! The traps that runs left.
#![tactic(auto, using(crate::proofs::Floats::floatless), unfolding(crate::proofs::Unfold::traps))]

ghost use Rattle.std.specs.Prelude.{◌≡◌, ◌++◌, All, IfOk, OnOk, map, string_bytes};
ghost use Rattle.serde_json.specs.View.{view as data_of};
ghost use Rattle.report_lines.specs.Texts.{numbered};
ghost use Rattle.sample_draws.specs.declared.drawing.TheConstants.{MAX_RUN};
ghost use Rattle.sample_tallies.specs.Counts.{entry_of};
ghost use Rattle.sample_tallies.specs.Within.{is_drawable};
ghost use Rattle.sample_tallies.specs.declared.seen.TrapSeen.{TrapSeen};
ghost use Rattle.sample_texts.specs.SampleData.{trap_data};
ghost use Rattle.sample_texts.specs.SampleTexts.{trap_line};
ghost use Rattle.sample_texts.specs.SampleJson.{trap_part};

use crate::redrawn::Orders;
use cheri_model::NoMemory;
use report_lines::{write_comma, write_json_value};
use sample_tallies::TrapSeen;
use serde_json::{Value, json};
use shown_states::Format;

/// Appends the line of a trap.
fn write_line(
    out: &mut String,
    orders: &mut Orders<'_>,
    place: usize,
    trap: TrapSeen,
) -> Result<(), NoMemory>
    requires { is_drawable trap.seen }
    ensures written { OnOk result (string_bytes out.new
        ≡ string_bytes out.old ++ trap_line orders.old place (entry_of trap)) }
    ensures same { orders.new ≡ orders.old }
{
    let (hart, cause) = (trap.place.hart, trap.place.cause);
    write!(out, "trap hart={hart} cause={cause} ")?;
    orders.write_seen(out, trap.seen)?;
    out.push_str("\n")
}

/// A trap with the order of its first run.
fn trap_json(orders: &mut Orders<'_>, trap: TrapSeen) -> Result<Value, NoMemory>
    requires { is_drawable trap.seen }
    ensures value { IfOk result (λ v. data_of v ≡ trap_data orders.old (entry_of trap)) }
    ensures same { orders.new ≡ orders.old }
{
    let order = orders.text(trap.seen.first)?;
    let (hart, cause) = (trap.place.hart, trap.place.cause);
    let (runs, first) = (trap.seen.runs, trap.seen.first);
    json!(in orders.alloc(); {
        "cause": cause, "first": first, "hart": hart, "order": order, "runs": runs
    })
}

/// Appends the object of a trap, by its place in a list.
fn write_object(
    out: &mut String,
    orders: &mut Orders<'_>,
    place: usize,
    trap: TrapSeen,
) -> Result<(), NoMemory>
    requires { is_drawable trap.seen }
    ensures written { OnOk result (string_bytes out.new
        ≡ string_bytes out.old ++ trap_part Format.Json orders.old place (entry_of trap)) }
    ensures same { orders.new ≡ orders.old }
{
    write_comma(out, place > 0)?;
    let trap = trap_json(orders, trap)?;
    write_json_value(orders.alloc(), out, trap)
}

/// Appends a trap, by its place.
fn write_trap(
    format: Format,
    out: &mut String,
    orders: &mut Orders<'_>,
    place: usize,
    trap: TrapSeen,
) -> Result<(), NoMemory>
    requires { is_drawable trap.seen }
    ensures written { OnOk result (string_bytes out.new
        ≡ string_bytes out.old ++ trap_part format orders.old place (entry_of trap)) }
    ensures same { orders.new ≡ orders.old }
{
    match format {
        Format::Text => write_line(out, orders, place, trap),
        Format::Json => write_object(out, orders, place, trap),
    }
}

/// Appends traps, one by one.
pub(crate) fn write_traps(
    format: Format,
    out: &mut String,
    orders: &mut Orders<'_>,
    traps: &[TrapSeen],
) -> Result<(), NoMemory>
    requires { All (λ (trap : TrapSeen). is_drawable trap.seen) traps.now }
    ensures written { OnOk result (string_bytes out.new ≡ string_bytes out.old
        ++ numbered (trap_part format orders.old) 0 (map entry_of traps.now)) }
    ensures same { orders.new ≡ orders.old }
{
    for (place, trap) in traps.iter().enumerate() {
        write_trap(format, out, orders, place, *trap)?;
    }
    Ok(())
}
