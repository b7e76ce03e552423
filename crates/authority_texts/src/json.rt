//! An answer in JSON.

ghost use Rattle.std.specs.Prelude.{◌≡◌, ◌++◌, IfOk, OnOk, string_bytes};
ghost use Rattle.serde_json.specs.View.{view as data_of};
ghost use Rattle.serde_json.specs.Written.{compact_text};
ghost use Rattle.authority_texts.specs.AuthorityTexts.{
  authority_data,
  harts_data,
  list_data,
  object_of,
  rights_data,
};
ghost use Rattle.order_texts.specs.OrderTexts.{order_text};
ghost use Rattle.report_lines.specs.Texts.{line};
ghost use Rattle.states.specs.Kept.{count};

use crate::told::Told;
use cheri_model::NoMemory;
use order_texts::write_order;
use report_lines::{Hex, Hex64, image_json, write_json_value};
use serde_json::{Map, Value, json, put};
use states::Kept;
use std::alloc::Global;

/// The order that leads to rights.
fn order_text(alloc: Global, told: &Told) -> Result<String, NoMemory>
    ensures { IfOk result (λ text. string_bytes text ≡ order_text told.now.order.items) }
{
    let mut text = String::new(alloc);
    write_order(&mut text, told.order.as_slice())?;
    Ok(text)
}

/// Rights.
#[tactic(auto, unfolding(crate::specs::AuthorityTexts::rights_data))]
fn rights_json(alloc: Global, told: &Told) -> Result<Value, NoMemory>
    ensures { IfOk result (λ v. data_of v ≡ rights_data told.now) }
{
    let base = Hex64(told.rights.base).to_string(alloc)?;
    let first = order_text(alloc, told)?;
    let perms = Hex::of_perms(told.rights.perms).to_string(alloc)?;
    let top = Hex::of_top(told.rights.top).to_string(alloc)?;
    json!(in alloc; {"base": base, "first": first, "perms": perms, "top": top})
}

/// A list of rights. Fails only when out of memory.
pub fn list_json(alloc: Global, list: &[Told]) -> Result<Value, NoMemory>
    ensures { IfOk result (λ v. data_of v ≡ list_data list.now) }
{
    let mut values = Vec::new(alloc);
    for told in list {
        values.push(rights_json(alloc, told)?)?;
    }
    Ok(Value::Array(values))
}

/// The lists of all harts. Fails only when out of memory.
pub fn harts_json(alloc: Global, lists: &[Vec<Told>]) -> Result<Value, NoMemory>
    ensures { IfOk result (λ v. data_of v ≡ harts_data lists.now) }
{
    let mut values = Vec::new(alloc);
    for list in lists {
        values.push(list_json(alloc, list.as_slice())?)?;
    }
    Ok(Value::Array(values))
}

/// The whole object, of values.
#[tactic(auto, unfolding(crate::specs::AuthorityTexts::object_of))]
fn object_of(
    alloc: Global,
    complete: bool,
    harts: Value,
    image: Value,
    memory: Value,
    states: u32,
) -> Result<Value, NoMemory>
    ensures { IfOk result (λ v. data_of v ≡ object_of complete (data_of harts) (data_of image)
        (data_of memory) states) }
{
    let version: u8 = 1;
    let mut members = Map::new(alloc);
    put(&mut members, alloc, "complete", Value::from(complete))?;
    put(&mut members, alloc, "explore", Value::from(version))?;
    put(&mut members, alloc, "harts", harts)?;
    put(&mut members, alloc, "image", image)?;
    put(&mut members, alloc, "memory", memory)?;
    put(&mut members, alloc, "states", Value::from(states))?;
    Ok(Value::Object(members))
}

/// Appends the object's line.
pub fn write_json(
    alloc: Global,
    out: &mut String,
    kept: &Kept,
    harts: &[Vec<Told>],
    memory: &[Told],
) -> Result<(), NoMemory>
    ensures { OnOk result (string_bytes out.new ≡ string_bytes out.old
        ++ line (compact_text (authority_data kept.now.complete kept.now.image (count kept.now)
        harts.now memory.now))) }
{
    let harts = harts_json(alloc, harts)?;
    let memory = list_json(alloc, memory)?;
    let image = image_json(alloc, kept.image())?;
    write_json_value(
        alloc,
        out,
        object_of(alloc, kept.is_complete(), harts, image, memory, kept.len())?,
    )?;
    out.push_str("\n")
}
