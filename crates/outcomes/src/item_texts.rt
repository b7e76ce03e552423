//! What items hold, as text and in JSON.

ghost use Rattle.std.specs.Prelude.{◌≡◌, ◌++◌, IfOk, OnOk, map, string_bytes};
ghost use Rattle.serde_json.specs.Data.{no_members, object};
ghost use Rattle.serde_json.specs.View.{view as data_of};
ghost use Rattle.outcomes.specs.ItemTexts.{
  item_part,
  item_value_text,
  items_text,
  put_items,
};

use crate::items::ItemValue;
use cheri_model::NoMemory;
use order_texts::NumberText;
use serde_json::{Map, Value, put};
use std::alloc::Global;
use std::fmt;

/// What an item holds: a number in hexadecimal, or a status.
#[derive(Clone, Copy)]
struct ItemText(ItemValue);

impl fmt::Display for ItemText {
    ghost use Rattle.std.specs.Prelude.{Some};
    ghost use Rattle.outcomes.specs.ItemTexts.{item_value_text};

    ghost output = { λ i. Some (item_value_text i.0) };

    fn fmt<W: fmt::Write>(&self, f: &mut fmt::Formatter<W>) -> fmt::Result {
        match self.0 {
            ItemValue::Number(number) => write!(f, "{}", NumberText(number)),
            ItemValue::Running => f.write_str("running"),
            ItemValue::Halted => f.write_str("halted"),
            ItemValue::Trapped(cause) => write!(f, "trapped:{cause}"),
        }
    }
}

/// Appends what an item holds.
fn write_item(out: &mut String, name: &str, value: ItemValue) -> Result<(), NoMemory>
    ensures { OnOk result (string_bytes out.new ≡ string_bytes out.old
        ++ item_part name.now value) }
{
    write!(out, " {name}={}", ItemText(value))
}

/// Appends what items hold, each after the text that it was given by. Fails only when out of
/// memory.
pub fn write_items(out: &mut String, names: &[&str], values: &[ItemValue]) -> Result<(), NoMemory>
    ensures { OnOk result (string_bytes out.new ≡ string_bytes out.old
        ++ items_text (map (λ name. name.now) names.now) values.now) }
{
    for place in 0..names.len().min(values.len()) {
        write_item(out, names[place], values[place])?;
    }
    Ok(())
}

/// What an item holds, as text.
fn item_text(alloc: Global, value: ItemValue) -> Result<String, NoMemory>
    ensures { IfOk result (λ text. string_bytes text ≡ item_value_text value) }
{
    ItemText(value).to_string(alloc)
}

/// What items hold, each under the text that it was given by; one that is given twice is there
/// once. Fails only when out of memory.
pub fn items_json(alloc: Global, names: &[&str], values: &[ItemValue]) -> Result<Value, NoMemory>
    ensures { IfOk result (λ v. data_of v
        ≡ object (put_items (map (λ name. name.now) names.now) values.now no_members)) }
{
    let mut members = Map::new(alloc);
    for place in 0..names.len().min(values.len()) {
        let text = item_text(alloc, values[place])?;
        put(&mut members, alloc, names[place], Value::from(text))?;
    }
    Ok(Value::Object(members))
}
