//! What is said where no kept state is one that was looked for.

ghost use Rattle.std.specs.Prelude.{◌≡◌, ◌++◌, IfOk, OnOk, string_bytes};
ghost use Rattle.serde_json.specs.View.{view as data_of};
ghost use Rattle.serde_json.specs.Written.{compact_text};
ghost use Rattle.found_texts.specs.FoundTexts.{
  absent_answer,
  absent_data,
  absent_joint,
  absent_line,
};
ghost use Rattle.found_texts.specs.ReducedTexts.{
  reduced_absent_data,
  said_absent,
  said_absent_data,
};
ghost use Rattle.reduced_texts.specs.ReducedTexts.{line_if_any};
ghost use Rattle.report_lines.specs.Texts.{line};

use cheri_model::{Image, NoMemory};
use reduced_texts::{reduced_value, write_reduced_line};
use reductions::LeftOut;
use report_lines::{image_json, write_json_value};
use serde_json::{Value, json};
use shown_states::Format;
use std::alloc::Global;

/// The word for it.
fn absent_answer(complete: bool) -> &'static str
    ensures { result.now ≡ absent_answer complete }
{
    if complete { "none" } else { "unknown" }
}

/// The word between it and the number of states.
fn absent_joint(complete: bool) -> &'static str
    ensures { result.now ≡ absent_joint complete }
{
    if complete { "in" } else { "after" }
}

/// The lines.
fn absent_lines(
    alloc: Global,
    left_out: Option<LeftOut>,
    complete: bool,
    states: u32,
) -> Result<String, NoMemory>
    ensures { IfOk result (λ text. string_bytes text
        ≡ line_if_any left_out ++ absent_line complete states) }
{
    let (answer, joint) = (absent_answer(complete), absent_joint(complete));
    let mut out = String::new(alloc);
    write_reduced_line(alloc, &mut out, left_out)?;
    writeln!(out, "{answer} {joint} {states} states")?;
    Ok(out)
}

/// The object where nothing was left out.
fn plain_json(alloc: Global, complete: bool, image: &Image, states: u32) -> Result<Value, NoMemory>
    ensures { IfOk result (λ v. data_of v ≡ absent_data complete image.now states) }
{
    let answer = absent_answer(complete);
    let version: u8 = 1;
    let image = image_json(alloc, image)?;
    json!(in alloc; {
        "answer": answer, "explore": version, "image": image, "states": states
    })
}

/// The object where something was.
fn reduced_json(
    alloc: Global,
    left_out: LeftOut,
    complete: bool,
    image: &Image,
    states: u32,
) -> Result<Value, NoMemory>
    ensures { IfOk result (λ v. data_of v
        ≡ reduced_absent_data left_out complete image.now states) }
{
    let answer = absent_answer(complete);
    let version: u8 = 2;
    let image = image_json(alloc, image)?;
    let reduced = reduced_value(alloc, left_out)?;
    json!(in alloc; {
        "answer": answer, "explore": version, "image": image, "reduced": reduced, "states": states
    })
}

/// The object.
fn absent_json(
    alloc: Global,
    left_out: Option<LeftOut>,
    complete: bool,
    image: &Image,
    states: u32,
) -> Result<Value, NoMemory>
    ensures { IfOk result (λ v. data_of v ≡ said_absent_data left_out complete image.now states) }
{
    match left_out {
        Some(left_out) => reduced_json(alloc, left_out, complete, image, states),
        None => plain_json(alloc, complete, image, states),
    }
}

/// The object's line.
fn json_line(
    alloc: Global,
    left_out: Option<LeftOut>,
    complete: bool,
    image: &Image,
    states: u32,
) -> Result<String, NoMemory>
    ensures { IfOk result (λ text. string_bytes text
        ≡ line (compact_text (said_absent_data left_out complete image.now states))) }
{
    let value = absent_json(alloc, left_out, complete, image, states)?;
    let mut out = String::new(alloc);
    write_json_value(alloc, &mut out, value)?;
    out.push_str("\n")?;
    Ok(out)
}

/// That no state is one that was looked for, of so many states: of all, or of those that were
/// kept; and what was left out, if anything was. Fails only when out of memory.
pub fn absent_text(
    alloc: Global,
    format: Format,
    left_out: Option<LeftOut>,
    complete: bool,
    image: &Image,
    states: u32,
) -> Result<String, NoMemory>
    ensures { IfOk result (λ text. string_bytes text
        ≡ said_absent left_out format complete image.now states) }
{
    match format {
        Format::Text => absent_lines(alloc, left_out, complete, states),
        Format::Json => json_line(alloc, left_out, complete, image, states),
    }
}
