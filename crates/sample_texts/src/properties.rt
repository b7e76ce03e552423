//! What is told of properties.
#![tactic(auto, using(crate::proofs::Rulesets::json), unfolding(crate::proofs::Unfold::properties))]

ghost use Rattle.std.specs.Prelude.{◌≡◌, ◌++◌, IfOk, OnOk, Some, string_bytes};
ghost use Rattle.serde_json.specs.View.{view as data_of};
ghost use Rattle.order_texts.specs.OrderTexts.{order_text};
ghost use Rattle.report_lines.specs.Texts.{numbered};
ghost use Rattle.sample_texts.specs.PropertyTexts.{answer_words, held_data, held_words};
ghost use Rattle.sample_texts.specs.PropertyTexts.{is_violated};
ghost use Rattle.sample_texts.specs.PropertyTexts.{may_hold, may_hold_when, order_words};
ghost use Rattle.sample_texts.specs.PropertyTexts.{property_data, property_line, sample_ending};
ghost use Rattle.sample_texts.specs.PropertyTexts.{unseen_data, violated_data, violated_words};
ghost use Rattle.sample_texts.specs.SampleJson.{property_part};

use cheri_model::{NoMemory, Op};
use explore_properties::{Claim, Property, When};
use order_texts::write_order;
use report_lines::{write_comma, write_json_value};
use sample_checks::{Decided, PropertySeen};
use serde_json::{Value, json};
use shown_states::{Ending, Format};
use std::alloc::Global;

/// Whether a run that decides a property shows that it holds, by when its condition is to hold.
fn may_hold_when(when: When) -> bool
    ensures { result ≡ may_hold_when when }
{
    match when {
        When::Sometimes => true,
        When::Never | When::Always | When::Finally => false,
    }
}

/// Whether a run that decides a property shows that it holds. Else it violates it.
fn may_hold(claim: &Claim) -> bool
    ensures { result ≡ may_hold claim.now }
{
    match claim {
        Claim::Holds(when, _) => may_hold_when(*when),
        Claim::Ends | Claim::EndsFairly => false,
    }
}

/// Appends the first run that decides, and its order.
fn write_first(out: &mut String, decided: &Decided) -> Result<(), NoMemory>
    ensures { OnOk result (string_bytes out.new
        ≡ string_bytes out.old ++ order_words decided.now) }
{
    write!(out, " first={} order=", decided.seen.first)?;
    write_order(out, decided.order.as_slice())
}

/// Appends what the runs say that decide a property which holds by them.
fn write_held(out: &mut String, decided: &Decided) -> Result<(), NoMemory>
    ensures { OnOk result (string_bytes out.new
        ≡ string_bytes out.old ++ held_words decided.now) }
{
    out.push_str("holds")?;
    write_first(out, decided)
}

/// Appends what the runs say that violate a property.
fn write_violated(out: &mut String, decided: &Decided) -> Result<(), NoMemory>
    ensures { OnOk result (string_bytes out.new
        ≡ string_bytes out.old ++ violated_words decided.now) }
{
    write!(out, "violated runs={}", decided.seen.runs)?;
    write_first(out, decided)
}

/// Appends what the runs say that decide a property.
fn write_decided(out: &mut String, holds: bool, decided: &Decided) -> Result<(), NoMemory>
    ensures { OnOk result (string_bytes out.new
        ≡ string_bytes out.old ++ answer_words holds (Some decided.now)) }
{
    if holds {
        write_held(out, decided)
    } else {
        write_violated(out, decided)
    }
}

/// Appends what was seen of a property.
fn write_answer(out: &mut String, told: &PropertySeen<'_, '_>) -> Result<(), NoMemory>
    ensures { OnOk result (string_bytes out.new ≡ string_bytes out.old
        ++ answer_words (may_hold told.now.property.now.claim) told.now.decided) }
{
    match &told.decided {
        None => out.push_str("not seen"),
        Some(decided) => write_decided(out, may_hold(told.property.claim()), decided),
    }
}

/// Appends the line of a property.
fn write_line(out: &mut String, told: &PropertySeen<'_, '_>) -> Result<(), NoMemory>
    ensures { OnOk result (string_bytes out.new
        ≡ string_bytes out.old ++ property_line told.now) }
{
    write!(out, "line {} ", told.property.line())?;
    write_answer(out, told)?;
    writeln!(out, " | {}", told.property.text())
}

/// The text of an order.
fn order_text(alloc: Global, order: &[Op]) -> Result<String, NoMemory>
    ensures { IfOk result (λ text. string_bytes text ≡ order_text order.now) }
{
    let mut text = String::new(alloc);
    write_order(&mut text, order)?;
    Ok(text)
}

/// A property that no run decides.
fn unseen_json(alloc: Global, property: &Property<'_>) -> Result<Value, NoMemory>
    ensures { IfOk result (λ v. data_of v ≡ unseen_data property.now) }
{
    let (line, text) = (property.line(), property.text());
    json!(in alloc; {"answer": "not seen", "line": line, "property": text})
}

/// A property that holds.
fn held_json(alloc: Global, property: &Property<'_>, decided: &Decided) -> Result<Value, NoMemory>
    ensures { IfOk result (λ v. data_of v ≡ held_data property.now decided.now) }
{
    let order = order_text(alloc, decided.order.as_slice())?;
    let (line, text) = (property.line(), property.text());
    let first = decided.seen.first;
    json!(in alloc; {
        "answer": "holds", "first": first, "line": line, "order": order, "property": text
    })
}

/// A property that is violated.
fn violated_json(
    alloc: Global,
    property: &Property<'_>,
    decided: &Decided,
) -> Result<Value, NoMemory>
    ensures { IfOk result (λ v. data_of v ≡ violated_data property.now decided.now) }
{
    let order = order_text(alloc, decided.order.as_slice())?;
    let (line, text) = (property.line(), property.text());
    let (runs, first) = (decided.seen.runs, decided.seen.first);
    json!(in alloc; {
        "answer": "violated", "first": first, "line": line, "order": order, "property": text,
        "runs": runs
    })
}

/// What was seen of a property.
fn property_json(alloc: Global, told: &PropertySeen<'_, '_>) -> Result<Value, NoMemory>
    ensures { IfOk result (λ v. data_of v ≡ property_data told.now) }
{
    let holds = may_hold(told.property.claim());
    match &told.decided {
        None => unseen_json(alloc, told.property),
        Some(decided) => {
            if holds {
                held_json(alloc, told.property, decided)
            } else {
                violated_json(alloc, told.property, decided)
            }
        }
    }
}

/// Appends a property, by its place.
fn write_property(
    alloc: Global,
    format: Format,
    out: &mut String,
    place: usize,
    told: &PropertySeen<'_, '_>,
) -> Result<(), NoMemory>
    ensures { OnOk result (string_bytes out.new
        ≡ string_bytes out.old ++ property_part format place told.now) }
{
    match format {
        Format::Text => write_line(out, told),
        Format::Json => {
            write_comma(out, place > 0)?;
            write_json_value(alloc, out, property_json(alloc, told)?)
        }
    }
}

/// Appends properties, one by one.
pub(crate) fn write_properties(
    alloc: Global,
    format: Format,
    out: &mut String,
    properties: &[PropertySeen<'_, '_>],
) -> Result<(), NoMemory>
    ensures { OnOk result (string_bytes out.new
        ≡ string_bytes out.old ++ numbered (property_part format) 0 properties.now) }
{
    for (place, told) in properties.iter().enumerate() {
        write_property(alloc, format, out, place, told)?;
    }
    Ok(())
}

/// Whether a property is violated.
fn is_violated(told: &PropertySeen<'_, '_>) -> bool
    ensures { result ≡ is_violated (may_hold told.now.property.now.claim) told.now.decided }
{
    match &told.decided {
        None => false,
        Some(_) => !may_hold(told.property.claim()),
    }
}

/// How an answer ends that tells this of properties: by the first that is violated.
pub fn sample_ending(properties: &[PropertySeen<'_, '_>]) -> Ending
    ensures { result ≡ sample_ending properties.now }
{
    for told in properties {
        if is_violated(told) {
            return Ending::Violated(told.property.line());
        }
    }
    Ending::Done
}
