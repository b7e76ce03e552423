//! The answer in JSON.
#![tactic(auto, using(crate::proofs::Rulesets::members), unfolding(crate::proofs::Unfold::members))]

ghost use Rattle.std.specs.Prelude.{◌≡◌, ◌++◌, IfOk, None, OnOk, Some, map, string_bytes};
ghost use Rattle.conditions.specs.Items.{list_of};
ghost use Rattle.report_lines.specs.EventData.{image_data};
ghost use Rattle.report_lines.specs.JsonText.{item_text};
ghost use Rattle.report_lines.specs.Texts.{numbered};
ghost use Rattle.sample_tallies.specs.Sums.{ends_in_order, traps_in_order};
ghost use Rattle.sample_tallies.specs.Within.{is_drawable};
ghost use Rattle.sample_tallies.specs.declared.seen.Seen.{Seen};
ghost use Rattle.sample_texts.specs.SampleData.{runs_data};
ghost use Rattle.sample_texts.specs.SampleJson.{items_json, json_head, numbers_json};
ghost use Rattle.sample_texts.specs.SampleJson.{outcomes_json, properties_json, property_list};
ghost use Rattle.sample_texts.specs.SampleJson.{sample_json};
ghost use Rattle.sample_texts.specs.SampleJson.{shown_json, traps_json};
ghost use Rattle.sample_texts.specs.SampleParts.{IsTold, drawn_of, sampled_of, shown_items};
ghost use Rattle.serde_json.specs.Data.{string};
ghost use Rattle.serde_json.specs.View.{view as data_of};
ghost use Rattle.serde_json.specs.Written.{compact_text};

use crate::drawn::write_drawn_json;
use crate::ends::write_outcomes;
use crate::properties::write_properties;
use crate::redrawn::Orders;
use crate::rows::write_rows;
use crate::sampled::Sampled;
use crate::spans::{Span, write_spans};
use crate::table::rows_of;
use crate::traps::write_traps;
use cheri_model::{Image, NoMemory};
use conditions::Items;
use report_lines::{image_json, write_comma, write_json_value};
use sample_checks::PropertySeen;
use sample_tallies::{Seen, Tally};
use serde_json::{Value, json};
use shown_states::Format;
use std::alloc::Global;

/// Runs of which there may be none.
fn runs_json(orders: &mut Orders<'_>, seen: Option<Seen>) -> Result<Value, NoMemory>
    requires { (s : Seen) → seen ≡ Some s → is_drawable s }
    ensures value { IfOk result (λ v. data_of v ≡ runs_data orders.old seen) }
    ensures same { orders.new ≡ orders.old }
{
    let Some(seen) = seen else {
        let none: u8 = 0;
        return json!(in orders.alloc(); {"runs": none});
    };
    let order = orders.text(seen.first)?;
    let (runs, first) = (seen.runs, seen.first);
    json!(in orders.alloc(); {"first": first, "order": order, "runs": runs})
}

/// Appends the object of runs of which there may be none.
fn write_runs(out: &mut String, orders: &mut Orders<'_>, seen: Option<Seen>) -> Result<(), NoMemory>
    requires { (s : Seen) → seen ≡ Some s → is_drawable s }
    ensures written { OnOk result (string_bytes out.new
        ≡ string_bytes out.old ++ compact_text (runs_data orders.old seen)) }
    ensures same { orders.new ≡ orders.old }
{
    let runs = runs_json(orders, seen)?;
    write_json_value(orders.alloc(), out, runs)
}

/// Appends the object of the image.
fn write_image(alloc: Global, out: &mut String, image: &Image) -> Result<(), NoMemory>
    ensures { OnOk result (string_bytes out.new
        ≡ string_bytes out.old ++ compact_text (image_data image.now)) }
{
    write_json_value(alloc, out, image_json(alloc, image)?)
}

/// Appends the members up to the image.
fn write_head(out: &mut String, orders: &mut Orders<'_>, tally: &Tally) -> Result<(), NoMemory>
    requires { IsTold orders.old.image tally.now }
    ensures written { OnOk result (string_bytes out.new
        ≡ string_bytes out.old ++ json_head orders.old tally.now.sum) }
    ensures same { orders.new ≡ orders.old }
{
    out.push_str("{\"cut\":")?;
    write_runs(out, orders, tally.cut())?;
    out.push_str(",\"drawn\":")?;
    write_drawn_json(orders.alloc(), out, orders.drawing())?;
    let version: u8 = 1;
    write!(out, ",\"explore\":{version},\"hung\":")?;
    write_runs(out, orders, tally.hung())?;
    out.push_str(",\"image\":")?;
    write_image(orders.alloc(), out, orders.image())
}

/// Appends a name of a list, by its place.
fn write_name(alloc: Global, out: &mut String, place: usize, name: &str) -> Result<(), NoMemory>
    ensures { OnOk result (string_bytes out.new
        ≡ string_bytes out.old ++ item_text string place name.now) }
{
    write_comma(out, place > 0)?;
    write_json_value(alloc, out, Value::try_from_str(alloc, name)?)
}

/// Appends names, one by one.
fn write_names(alloc: Global, out: &mut String, names: &[&str]) -> Result<(), NoMemory>
    ensures { OnOk result (string_bytes out.new ≡ string_bytes out.old
        ++ numbered (item_text string) 0 (map (λ name. name.now) names.now)) }
{
    for place in 0..names.len() {
        write_name(alloc, out, place, names[place])?;
    }
    Ok(())
}

/// Appends the member of the items, where items are shown.
fn write_items(alloc: Global, out: &mut String, items: Option<&Items<'_>>) -> Result<(), NoMemory>
    ensures { OnOk result (string_bytes out.new
        ≡ string_bytes out.old ++ items_json (shown_items items.entry)) }
{
    let Some(items) = items else {
        return Ok(());
    };
    out.push_str(",\"items\":[")?;
    write_names(alloc, out, items.names.as_slice())?;
    out.push_str("]")
}

/// Appends the members of the longest run and of the numbers.
fn write_numbers(out: &mut String, longest: u32, numbers: &[Span]) -> Result<(), NoMemory>
    ensures { OnOk result (string_bytes out.new
        ≡ string_bytes out.old ++ numbers_json longest numbers.now) }
{
    write!(out, ",\"longest\":{longest},\"numbers\":[")?;
    write_spans(Format::Json, out, numbers)?;
    out.push_str("]")?;
    Ok(())
}

/// Appends the member of the outcomes.
fn write_outcome_list(
    out: &mut String,
    orders: &mut Orders<'_>,
    tally: &Tally,
) -> Result<(), NoMemory>
    requires { IsTold orders.old.image tally.now }
    ensures written { OnOk result (string_bytes out.new ≡ string_bytes out.old
        ++ outcomes_json orders.old None (ends_in_order tally.now.sum)) }
    ensures same { orders.new ≡ orders.old }
{
    out.push_str(",\"outcomes\":[")?;
    let order = tally.order(orders.alloc())?;
    write_outcomes(Format::Json, out, orders, tally, order.as_slice())?;
    out.push_str("]")?;
    Ok(())
}

/// Appends the member of the outcomes, unless items are shown.
fn write_outcomes_member(
    out: &mut String,
    orders: &mut Orders<'_>,
    tally: &Tally,
    items: Option<&Items<'_>>,
) -> Result<(), NoMemory>
    requires { IsTold orders.old.image tally.now }
    ensures written { OnOk result (string_bytes out.new ≡ string_bytes out.old
        ++ outcomes_json orders.old (shown_items items.entry) (ends_in_order tally.now.sum)) }
    ensures same { orders.new ≡ orders.old }
{
    match items {
        None => write_outcome_list(out, orders, tally),
        Some(_) => Ok(()),
    }
}

/// Appends the member of properties.
fn write_property_list(
    alloc: Global,
    out: &mut String,
    properties: &[PropertySeen<'_, '_>],
) -> Result<(), NoMemory>
    ensures { OnOk result (string_bytes out.new
        ≡ string_bytes out.old ++ property_list properties.now) }
{
    out.push_str(",\"properties\":[")?;
    write_properties(alloc, Format::Json, out, properties)?;
    out.push_str("]")?;
    Ok(())
}

/// Appends the member of the properties, where there are any.
fn write_properties_member(
    alloc: Global,
    out: &mut String,
    properties: &[PropertySeen<'_, '_>],
) -> Result<(), NoMemory>
    ensures { OnOk result (string_bytes out.new
        ≡ string_bytes out.old ++ properties_json properties.now) }
{
    if properties.is_empty() {
        return Ok(());
    }
    write_property_list(alloc, out, properties)
}

/// Appends the member of the rows.
fn write_row_list(
    out: &mut String,
    orders: &mut Orders<'_>,
    tally: &Tally,
    items: &Items<'_>,
) -> Result<(), NoMemory>
    requires { IsTold orders.old.image tally.now }
    ensures written { OnOk result (string_bytes out.new ≡ string_bytes out.old
        ++ shown_json orders.old (Some (list_of items.now)) (ends_in_order tally.now.sum)) }
    ensures same { orders.new ≡ orders.old }
{
    out.push_str(",\"shown\":[")?;
    let rows = rows_of(orders, tally, items.shown.as_slice())?;
    let told = rows.as_slice();
    let names = items.names.as_slice();
    write_rows(Format::Json, out, orders, names, told)?;
    out.push_str("]")?;
    Ok(())
}

/// Appends the member of the rows, where items are shown.
fn write_shown_member(
    out: &mut String,
    orders: &mut Orders<'_>,
    tally: &Tally,
    items: Option<&Items<'_>>,
) -> Result<(), NoMemory>
    requires { IsTold orders.old.image tally.now }
    ensures written { OnOk result (string_bytes out.new ≡ string_bytes out.old
        ++ shown_json orders.old (shown_items items.entry) (ends_in_order tally.now.sum)) }
    ensures same { orders.new ≡ orders.old }
{
    match items {
        None => Ok(()),
        Some(items) => write_row_list(out, orders, tally, items),
    }
}

/// Appends the member of the traps, and the object's end.
fn write_traps_member(
    out: &mut String,
    orders: &mut Orders<'_>,
    tally: &Tally,
) -> Result<(), NoMemory>
    requires { IsTold orders.old.image tally.now }
    ensures written { OnOk result (string_bytes out.new ≡ string_bytes out.old
        ++ traps_json orders.old (traps_in_order tally.now.sum)) }
    ensures same { orders.new ≡ orders.old }
{
    out.push_str(",\"traps\":[")?;
    let traps = tally.traps(orders.alloc())?;
    write_traps(Format::Json, out, orders, traps.as_slice())?;
    out.push_str("]}\n")?;
    Ok(())
}

/// Appends the whole object's line.
pub(crate) fn write_json(
    out: &mut String,
    orders: &mut Orders<'_>,
    sampled: Sampled<'_, '_>,
) -> Result<(), NoMemory>
    requires told { IsTold orders.old.image sampled.tally.now }
    requires drawn { orders.old ≡ drawn_of (sampled_of sampled) }
    ensures { OnOk result (string_bytes out.new
        ≡ string_bytes out.old ++ sample_json (sampled_of sampled.entry)) }
{
    write_head(out, orders, sampled.tally)?;
    write_items(orders.alloc(), out, sampled.items)?;
    write_numbers(out, sampled.tally.longest(), sampled.numbers)?;
    write_outcomes_member(out, orders, sampled.tally, sampled.items)?;
    write_properties_member(orders.alloc(), out, sampled.properties)?;
    write!(out, ",\"runs\":{}", sampled.tally.runs())?;
    write_shown_member(out, orders, sampled.tally, sampled.items)?;
    write_traps_member(out, orders, sampled.tally)
}
