//! Outcomes as states.
#![tactic(auto, unfolding(crate::proofs::Unfold::listed))]

ghost use Rattle.std.specs.Prelude.{
  ◌≡◌,
  ◌*◌,
  ◌<◌,
  ◌++◌,
  false,
  length,
  IfOk,
  OnOk,
  codes,
  string_bytes,
};
ghost use Rattle.outcome_texts.specs.OutcomeParts.{
  json_head,
  kept_part,
  listed_head,
  listed_tail,
  listed_whole,
  ordered_part,
  outcome_after,
  outcome_before,
  outcome_part,
};
ghost use Rattle.outcome_texts.specs.Told.{kept_state, AreOutcomesBelow};
ghost use Rattle.shown_states.specs.declared.form.Format.{Format};
ghost use Rattle.report_lines.specs.Texts.{numbered};
ghost use Rattle.states.specs.Kept.{count};

use crate::heads::{Head, write_head_lines, write_json_head};
use crate::told::Outcome;
use cheri_model::NoMemory;
use report_lines::write_comma;
use shown_states::{Format, Loaded, write_json_string, write_state};
use states::{Kept, Room};
use std::alloc::Global;

/// Appends what stands before the state of an outcome, by its number.
fn write_before(
    format: Format,
    out: &mut String,
    number: usize,
    order: &String,
) -> Result<(), NoMemory>
    ensures { OnOk result (string_bytes out.new ≡ string_bytes out.old
        ++ outcome_before format number (string_bytes order.now)) }
{
    match format {
        Format::Text => writeln!(out, "outcome {number} order={}", order.as_str()),
        Format::Json => {
            write_comma(out, number > 0)?;
            out.push_str("{")
        }
    }
}

/// Appends the member of an outcome's order, and the end of its object.
fn write_order_member(alloc: Global, out: &mut String, order: &String) -> Result<(), NoMemory>
    ensures { OnOk result (string_bytes out.new ≡ string_bytes out.old
        ++ outcome_after Format.Json (string_bytes order.now)) }
{
    let order = order.clone()?;
    out.push_str(",\"order\":")?;
    write_json_string(alloc, out, order)?;
    out.push_str("}")
}

/// Appends what stands after the state.
fn write_after(
    alloc: Global,
    format: Format,
    out: &mut String,
    order: &String,
) -> Result<(), NoMemory>
    ensures { OnOk result (string_bytes out.new ≡ string_bytes out.old
        ++ outcome_after format (string_bytes order.now)) }
{
    match format {
        Format::Text => Ok(()),
        Format::Json => write_order_member(alloc, out, order),
    }
}

/// Loads the state of an outcome.
fn load_outcome(state: &mut Loaded, kept: &Kept, number: u32)
    requires there { number < count kept.now }
    requires harts { length state.old.harts ≡ length kept.now.image.harts }
    requires granules { 16 * length state.old.memory ≡ kept.now.image.ram }
    ensures state { state.new ≡ kept_state kept.now number }
    ensures harts { length state.new.harts ≡ length kept.now.image.harts }
    ensures granules { 16 * length state.new.memory ≡ kept.now.image.ram }
{
    state.load(kept.state(number, &mut Room::new()));
}

/// Appends an outcome of a number: the order that leads to it, and its state. Fails only when out of
/// memory.
pub fn write_ordered(
    alloc: Global,
    format: Format,
    out: &mut String,
    number: usize,
    order: &String,
    state: &Loaded,
) -> Result<(), NoMemory>
    ensures { OnOk result (string_bytes out.new ≡ string_bytes out.old
        ++ ordered_part format state.now number (string_bytes order.now)) }
{
    write_before(format, out, number, order)?;
    write_state(alloc, format, out, state)?;
    write_after(alloc, format, out, order)
}

/// Appends an outcome in its state.
fn write_outcome(
    alloc: Global,
    format: Format,
    out: &mut String,
    number: usize,
    outcome: &Outcome,
    state: &Loaded,
) -> Result<(), NoMemory>
    ensures { OnOk result (string_bytes out.new ≡ string_bytes out.old
        ++ outcome_part format state.now number outcome.now) }
{
    write_ordered(alloc, format, out, number, &outcome.order, state)
}

/// Appends outcomes, one by one: each is loaded into the same state.
fn write_outcomes(
    alloc: Global,
    format: Format,
    out: &mut String,
    state: &mut Loaded,
    kept: &Kept,
    outcomes: &[Outcome],
) -> Result<(), NoMemory>
    requires there { AreOutcomesBelow (count kept.now) outcomes.now }
    requires harts { length state.old.harts ≡ length kept.now.image.harts }
    requires granules { 16 * length state.old.memory ≡ kept.now.image.ram }
    ensures { OnOk result (string_bytes out.new ≡ string_bytes out.old
        ++ numbered (kept_part format kept.now) 0 outcomes.now) }
{
    for (number, outcome) in outcomes.iter().enumerate() {
        load_outcome(state, kept, outcome.state);
        write_outcome(alloc, format, out, number, outcome, state)?;
    }
    Ok(())
}

/// Appends what stands before the outcomes in JSON.
fn write_json_before(alloc: Global, out: &mut String, head: Head<'_>) -> Result<(), NoMemory>
    requires { head.reduced ≡ false }
    ensures { OnOk result (string_bytes out.new ≡ string_bytes out.old
        ++ (json_head false head.entry.complete head.entry.image.now
        head.entry.endless.now ++ codes ",\"outcomes\":[")) }
{
    write_json_head(alloc, out, head)?;
    out.push_str(",\"outcomes\":[")
}

/// Appends what stands before the outcomes.
fn write_head(
    alloc: Global,
    format: Format,
    out: &mut String,
    head: Head<'_>,
    outcomes: usize,
) -> Result<(), NoMemory>
    requires { head.reduced ≡ false }
    ensures { OnOk result (string_bytes out.new ≡ string_bytes out.old
        ++ listed_head format head.entry.complete head.entry.image.now
        head.entry.states head.entry.endless.now outcomes) }
{
    match format {
        Format::Text => write_head_lines(out, head, outcomes),
        Format::Json => write_json_before(alloc, out, head),
    }
}

/// Appends what stands after them.
fn write_tail(format: Format, out: &mut String, states: u32) -> Result<(), NoMemory>
    ensures { OnOk result (string_bytes out.new ≡ string_bytes out.old
        ++ listed_tail format states) }
{
    match format {
        Format::Text => out.push_str("end\n"),
        Format::Json => writeln!(out, "],\"states\":{states}}}"),
    }
}

/// Outcomes as states, each with its order, where no register was forgotten. Each is loaded into
/// `state`, which has as many harts and granules. Fails only when out of memory.
pub fn listed_text(
    alloc: Global,
    format: Format,
    head: Head<'_>,
    state: &mut Loaded,
    kept: &Kept,
    outcomes: &[Outcome],
) -> Result<String, NoMemory>
    requires whole { head.reduced ≡ false }
    requires there { AreOutcomesBelow (count kept.now) outcomes.now }
    requires harts { length state.old.harts ≡ length kept.now.image.harts }
    requires granules { 16 * length state.old.memory ≡ kept.now.image.ram }
    ensures { IfOk result (λ text. string_bytes text
        ≡ listed_whole format head.entry.complete head.entry.image.now
        head.entry.states head.entry.endless.now kept.now outcomes.now) }
{
    let mut out = String::new(alloc);
    write_head(alloc, format, &mut out, head, outcomes.len())?;
    write_outcomes(alloc, format, &mut out, state, kept, outcomes)?;
    write_tail(format, &mut out, head.states)?;
    Ok(out)
}
