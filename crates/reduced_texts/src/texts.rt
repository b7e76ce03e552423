//! What a search left out, as a line and as a list in JSON.

ghost use Rattle.std.specs.Prelude.{◌≡◌, ◌++◌, IfOk, OnOk, map, string_bytes};
ghost use Rattle.serde_json.specs.Data.{array, string};
ghost use Rattle.serde_json.specs.View.{items_of, view as data_of};
ghost use Rattle.reduced_texts.specs.ReducedTexts.{
  line_if_any,
  member_if_any,
  reduced_data,
  reduced_line,
  reduced_member,
};

use crate::words::left_out_words;
use cheri_model::NoMemory;
use reductions::LeftOut;
use report_lines::write_json_value;
use serde_json::Value;
use std::alloc::Global;

/// The line that says what a search left out. Fails only when out of memory.
pub fn reduced_line(alloc: Global, left_out: LeftOut) -> Result<String, NoMemory>
    ensures { IfOk result (λ text. string_bytes text ≡ reduced_line left_out) }
{
    let words = left_out_words(alloc, left_out)?;
    let mut line = String::from_str(alloc, "reduced")?;
    for word in words.iter() {
        line.push_str(" ")?;
        line.push_str(word.as_str())?;
    }
    line.push_str("\n")?;
    Ok(line)
}

/// Words as a list in JSON.
fn words_json(alloc: Global, words: &[String]) -> Result<Value, NoMemory>
    ensures { IfOk result (λ value. data_of value
        ≡ array (items_of (map string (map string_bytes words.now)))) }
{
    let mut values = Vec::new(alloc);
    for word in words {
        values.push(Value::try_from_str(alloc, word.as_str())?)?;
    }
    Ok(Value::Array(values))
}

/// The list in JSON that says the same. Fails only when out of memory.
pub fn reduced_value(alloc: Global, left_out: LeftOut) -> Result<Value, NoMemory>
    ensures { IfOk result (λ value. data_of value ≡ reduced_data left_out) }
{
    let words = left_out_words(alloc, left_out)?;
    words_json(alloc, words.as_slice())
}

/// Appends the line, where something was left out.
pub fn write_reduced_line(
    alloc: Global,
    out: &mut String,
    left_out: Option<LeftOut>,
) -> Result<(), NoMemory>
    ensures { OnOk result (string_bytes out.new
        ≡ string_bytes out.old ++ line_if_any left_out) }
{
    if let Some(left_out) = left_out {
        let line = reduced_line(alloc, left_out)?;
        out.push_str(line.as_str())?;
    }
    Ok(())
}

/// Appends the list as a member of an object in JSON, after a comma.
fn write_member(alloc: Global, out: &mut String, left_out: LeftOut) -> Result<(), NoMemory>
    ensures { OnOk result (string_bytes out.new
        ≡ string_bytes out.old ++ reduced_member left_out) }
{
    let value = reduced_value(alloc, left_out)?;
    out.push_str(",\"reduced\":")?;
    write_json_value(alloc, out, value)
}

/// Appends this member, where something was left out.
pub fn write_reduced_member(
    alloc: Global,
    out: &mut String,
    left_out: Option<LeftOut>,
) -> Result<(), NoMemory>
    ensures { OnOk result (string_bytes out.new
        ≡ string_bytes out.old ++ member_if_any left_out) }
{
    match left_out {
        Some(left_out) => write_member(alloc, out, left_out),
        None => Ok(()),
    }
}
