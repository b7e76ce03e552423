//! Verdicts in JSON.
#![tactic(auto, unfolding(crate::proofs::Unfold::json))]

ghost use Rattle.std.specs.Prelude.{◌≡◌, ◌++◌, IfOk, OnOk, string_bytes};
ghost use Rattle.serde_json.specs.View.{view as data_of};
ghost use Rattle.explore_checks.specs.CheckParts.{
  check_json,
  complete_text,
  json_head,
  version_of,
};
ghost use Rattle.explore_checks.specs.CheckTexts.{lasso_data, ordered_data};
ghost use Rattle.explore_checks.specs.CheckTexts.{plain_data, property_data};
ghost use Rattle.order_texts.specs.OrderTexts.{order_text};
ghost use Rattle.report_lines.specs.JsonText.{item_text};
ghost use Rattle.report_lines.specs.Texts.{numbered};

use crate::head::Head;
use crate::texts::verdict_word;
use cheri_model::{Image, NoMemory, Op};
use explore_properties::Property;
use explore_verdicts::{PropertyVerdict, Verdict};
use order_texts::write_order;
use reduced_texts::write_reduced_member;
use reductions::LeftOut;
use report_lines::{image_json, write_comma, write_json_value};
use serde_json::{Value, json};
use state_loops::Lasso;
use std::alloc::Global;

/// The text of an order.
fn order_text(alloc: Global, order: &[Op]) -> Result<String, NoMemory>
    ensures { IfOk result (λ text. string_bytes text ≡ order_text order.now) }
{
    let mut text = String::new(alloc);
    write_order(&mut text, order)?;
    Ok(text)
}

/// A property without a run.
fn plain_json(alloc: Global, word: &str, property: &Property<'_>) -> Result<Value, NoMemory>
    ensures { IfOk result (λ v. data_of v ≡ plain_data word.now property.now) }
{
    let (line, text) = (property.line(), property.text());
    json!(in alloc; {"answer": word, "line": line, "property": text})
}

/// A property with an order.
fn ordered_json(
    alloc: Global,
    word: &str,
    property: &Property<'_>,
    order: &[Op],
) -> Result<Value, NoMemory>
    ensures { IfOk result (λ v. data_of v ≡ ordered_data word.now property.now order.now) }
{
    let order = order_text(alloc, order)?;
    let (line, text) = (property.line(), property.text());
    json!(in alloc; {"answer": word, "line": line, "order": order, "property": text})
}

/// A property with a run that goes on for ever.
fn lasso_json(
    alloc: Global,
    word: &str,
    property: &Property<'_>,
    lasso: &Lasso,
) -> Result<Value, NoMemory>
    ensures { IfOk result (λ v. data_of v
        ≡ lasso_data word.now property.now lasso.now.order.items lasso.now.cycle.items) }
{
    let cycle = order_text(alloc, lasso.cycle.as_slice())?;
    let order = order_text(alloc, lasso.order.as_slice())?;
    let (line, text) = (property.line(), property.text());
    json!(in alloc; {
        "answer": word, "line": line, "loop": cycle, "order": order, "property": text
    })
}

/// A property.
fn property_json(alloc: Global, told: &PropertyVerdict<'_, '_>) -> Result<Value, NoMemory>
    ensures { IfOk result (λ v. data_of v ≡ property_data told.now) }
{
    let word = verdict_word(&told.verdict);
    match &told.verdict {
        Verdict::HoldsAfter(order) => ordered_json(alloc, word, told.property, order.as_slice()),
        Verdict::ViolatedAfter(order) => {
            ordered_json(alloc, word, told.property, order.as_slice())
        }
        Verdict::ViolatedBy(lasso) => lasso_json(alloc, word, told.property, lasso),
        Verdict::Holds => plain_json(alloc, word, told.property),
        Verdict::Violated => plain_json(alloc, word, told.property),
        Verdict::Unknown => plain_json(alloc, word, told.property),
    }
}

/// Appends a property of a list, by its number.
fn write_property(
    alloc: Global,
    out: &mut String,
    number: usize,
    told: &PropertyVerdict<'_, '_>,
) -> Result<(), NoMemory>
    ensures { OnOk result (string_bytes out.new
        ≡ string_bytes out.old ++ item_text property_data number told.now) }
{
    write_comma(out, number > 0)?;
    write_json_value(alloc, out, property_json(alloc, told)?)
}

/// Appends properties.
fn write_properties(
    alloc: Global,
    out: &mut String,
    told: &[PropertyVerdict<'_, '_>],
) -> Result<(), NoMemory>
    ensures { OnOk result (string_bytes out.new
        ≡ string_bytes out.old ++ numbered (item_text property_data) 0 told.now) }
{
    for (number, property) in told.iter().enumerate() {
        write_property(alloc, out, number, property)?;
    }
    Ok(())
}

/// Whether all states were kept.
fn complete_text(complete: bool) -> &'static str
    ensures { result.now ≡ complete_text complete }
{
    if complete { "true" } else { "false" }
}

/// The answer's version.
fn version_of(reduced: Option<LeftOut>) -> u8
    ensures { result ≡ version_of reduced }
{
    match reduced {
        Some(_) => 2,
        None => 1,
    }
}

/// Appends the members up to the image.
fn write_head(
    alloc: Global,
    out: &mut String,
    reduced: Option<LeftOut>,
    complete: bool,
    image: &Image,
) -> Result<(), NoMemory>
    ensures { OnOk result (string_bytes out.new
        ≡ string_bytes out.old ++ json_head reduced complete image.now) }
{
    out.push_str("{\"complete\":")?;
    out.push_str(complete_text(complete))?;
    let version = version_of(reduced);
    write!(out, ",\"explore\":{version},\"image\":")?;
    write_json_value(alloc, out, image_json(alloc, image)?)
}

/// Appends the object's line.
pub(crate) fn write_json(
    alloc: Global,
    out: &mut String,
    head: Head<'_>,
    told: &[PropertyVerdict<'_, '_>],
) -> Result<(), NoMemory>
    ensures { OnOk result (string_bytes out.new ≡ string_bytes out.old
        ++ check_json head.entry.reduced head.entry.complete head.entry.image.now
        head.entry.states told.now) }
{
    write_head(alloc, out, head.reduced, head.complete, head.image)?;
    out.push_str(",\"properties\":[")?;
    write_properties(alloc, out, told)?;
    out.push_str("]")?;
    write_reduced_member(alloc, out, head.reduced)?;
    writeln!(out, ",\"states\":{}}}", head.states)
}
