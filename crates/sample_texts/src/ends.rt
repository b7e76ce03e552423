//! The states in which runs ended.
#![tactic(auto, unfolding(crate::proofs::Unfold::ends))]

ghost use Rattle.std.specs.Prelude.{◌≡◌, ◌++◌, ◌<◌, All, IfOk, OnOk, Some, length, map};
ghost use Rattle.std.specs.Prelude.{slice_get, string_bytes};
ghost use Rattle.cheri_model.specs.runs.Machine.{MachineState};
ghost use Rattle.report_lines.specs.Texts.{numbered};
ghost use Rattle.sample_tallies.specs.Sums.{ends_in_order};
ghost use Rattle.sample_tallies.specs.Tables.{Entry};
ghost use Rattle.sample_tallies.specs.Within.{is_drawable};
ghost use Rattle.sample_texts.specs.SampleJson.{outcome_part};
ghost use Rattle.sample_texts.specs.SampleParts.{IsTold};
ghost use Rattle.sample_texts.specs.SampleTexts.{outcome_line};

use crate::redrawn::Orders;
use cheri_model::NoMemory;
use report_lines::write_comma;
use sample_tallies::{Seen, Tally};
use shown_states::{Format, Loaded, write_json_string, write_state};

/// Loads the end of a number into a state of as many harts and granules.
pub(crate) fn load_end(state: &mut Loaded, tally: &Tally, number: u32)
    requires there { number < length tally.now.sum.ends }
    requires harts { length state.old.harts ≡ tally.now.harts }
    requires granules { length state.old.memory ≡ tally.now.granules }
    ensures state { (end : Entry MachineState) →
        slice_get tally.now.sum.ends number ≡ Some end → state.new ≡ end.key }
    ensures harts { length state.new.harts ≡ tally.now.harts }
    ensures granules { length state.new.memory ≡ tally.now.granules }
{
    state.load(tally.end_state(number));
}

/// Appends the line of an outcome, by its place.
fn write_line(
    out: &mut String,
    orders: &mut Orders<'_>,
    place: usize,
    seen: Seen,
) -> Result<(), NoMemory>
    requires { is_drawable seen }
    ensures written { OnOk result (string_bytes out.new
        ≡ string_bytes out.old ++ outcome_line orders.old place seen) }
    ensures same { orders.new ≡ orders.old }
{
    write!(out, "outcome {place} ")?;
    orders.write_seen(out, seen)?;
    out.push_str("\n")
}

/// Appends the lines of an outcome in its state, by its place.
fn write_lines(
    out: &mut String,
    orders: &mut Orders<'_>,
    place: usize,
    seen: Seen,
    state: &Loaded,
) -> Result<(), NoMemory>
    requires { is_drawable seen }
    ensures written { OnOk result (string_bytes out.new ≡ string_bytes out.old
        ++ outcome_part Format.Text orders.old place (record { key = state.now; seen = seen })) }
    ensures same { orders.new ≡ orders.old }
{
    write_line(out, orders, place, seen)?;
    write_state(orders.alloc(), Format::Text, out, state)
}

/// Appends the object of an outcome in its state, by its place.
fn write_object(
    out: &mut String,
    orders: &mut Orders<'_>,
    place: usize,
    seen: Seen,
    state: &Loaded,
) -> Result<(), NoMemory>
    requires { is_drawable seen }
    ensures written { OnOk result (string_bytes out.new ≡ string_bytes out.old
        ++ outcome_part Format.Json orders.old place (record { key = state.now; seen = seen })) }
    ensures same { orders.new ≡ orders.old }
{
    write_comma(out, place > 0)?;
    write!(out, "{{\"first\":{},", seen.first)?;
    write_state(orders.alloc(), Format::Json, out, state)?;
    out.push_str(",\"order\":")?;
    let order = orders.text(seen.first)?;
    write_json_string(orders.alloc(), out, order)?;
    write!(out, ",\"runs\":{}}}", seen.runs)
}

/// Appends an outcome in its state, by its place.
fn write_outcome(
    format: Format,
    out: &mut String,
    orders: &mut Orders<'_>,
    place: usize,
    seen: Seen,
    state: &Loaded,
) -> Result<(), NoMemory>
    requires { is_drawable seen }
    ensures written { OnOk result (string_bytes out.new ≡ string_bytes out.old
        ++ outcome_part format orders.old place (record { key = state.now; seen = seen })) }
    ensures same { orders.new ≡ orders.old }
{
    match format {
        Format::Text => write_lines(out, orders, place, seen, state),
        Format::Json => write_object(out, orders, place, seen, state),
    }
}

/// Appends the ends of a tally as outcomes, in this order of their numbers.
pub(crate) fn write_outcomes(
    format: Format,
    out: &mut String,
    orders: &mut Orders<'_>,
    tally: &Tally,
    order: &[u32],
) -> Result<(), NoMemory>
    requires told { IsTold orders.old.image tally.now }
    requires sorted { map (slice_get tally.now.sum.ends) order.now
        ≡ map (λ end. Some end) (ends_in_order tally.now.sum) }
    requires within { All (λ number. number < length tally.now.sum.ends) order.now }
    ensures written { OnOk result (string_bytes out.new ≡ string_bytes out.old
        ++ numbered (outcome_part format orders.old) 0 (ends_in_order tally.now.sum)) }
    ensures same { orders.new ≡ orders.old }
{
    let mut state = orders.blank()?;
    for (place, number) in order.iter().enumerate() {
        load_end(&mut state, tally, *number);
        write_outcome(format, out, orders, place, tally.end_seen(*number), &state)?;
    }
    Ok(())
}
