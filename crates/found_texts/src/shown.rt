//! What is said of a state that was found.

ghost use Rattle.std.specs.Prelude.{◌≡◌, ◌++◌, IfOk, OnOk, is_some, string_bytes};
ghost use Rattle.found_texts.specs.FoundParts.{
  found_head,
  found_tail,
  image_members,
  json_head,
  order_member,
  text_head,
};
ghost use Rattle.found_texts.specs.ReducedTexts.{said_found};
ghost use Rattle.order_texts.specs.OrderTexts.{order_text};

use crate::reduced::reduced_version;
use cheri_model::{Image, NoMemory, Op};
use order_texts::write_order;
use reduced_texts::{write_reduced_line, write_reduced_member};
use reductions::LeftOut;
use report_lines::{image_json, write_json_value};
use shown_states::{Format, Loaded, write_json_string, write_state};
use std::alloc::Global;

/// Appends the lines before the state.
fn write_text_head(
    alloc: Global,
    out: &mut String,
    left_out: Option<LeftOut>,
    order: &[Op],
) -> Result<(), NoMemory>
    ensures { OnOk result (string_bytes out.new
        ≡ string_bytes out.old ++ text_head left_out order.now) }
{
    write_reduced_line(alloc, out, left_out)?;
    out.push_str("found order=")?;
    write_order(out, order)?;
    out.push_str("\n")
}

/// Appends the members up to the image.
fn write_image_members(
    alloc: Global,
    out: &mut String,
    reduced: bool,
    image: &Image,
) -> Result<(), NoMemory>
    ensures { OnOk result (string_bytes out.new
        ≡ string_bytes out.old ++ image_members reduced image.now) }
{
    let version = reduced_version(reduced);
    write!(
        out,
        "{{\"answer\":\"found\",\"explore\":{version},\"image\":"
    )?;
    write_json_value(alloc, out, image_json(alloc, image)?)?;
    Ok(())
}

/// The text of an order.
fn order_text(alloc: Global, order: &[Op]) -> Result<String, NoMemory>
    ensures { IfOk result (λ text. string_bytes text ≡ order_text order.now) }
{
    let mut text = String::new(alloc);
    write_order(&mut text, order)?;
    Ok(text)
}

/// Appends the member of the order.
fn write_order_member(alloc: Global, out: &mut String, order: &[Op]) -> Result<(), NoMemory>
    ensures { OnOk result (string_bytes out.new ≡ string_bytes out.old ++ order_member order.now) }
{
    let text = order_text(alloc, order)?;
    out.push_str(",\"order\":")?;
    write_json_string(alloc, out, text)
}

/// Appends the members before the state, and its beginning.
fn write_json_head(
    alloc: Global,
    out: &mut String,
    left_out: Option<LeftOut>,
    image: &Image,
    order: &[Op],
) -> Result<(), NoMemory>
    ensures { OnOk result (string_bytes out.new
        ≡ string_bytes out.old ++ json_head left_out image.now order.now) }
{
    write_image_members(alloc, out, left_out.is_some(), image)?;
    write_order_member(alloc, out, order)?;
    write_reduced_member(alloc, out, left_out)?;
    out.push_str(",\"state\":{")
}

/// Appends what stands before the state.
fn write_head(
    alloc: Global,
    format: Format,
    out: &mut String,
    left_out: Option<LeftOut>,
    image: &Image,
    order: &[Op],
) -> Result<(), NoMemory>
    ensures { OnOk result (string_bytes out.new
        ≡ string_bytes out.old ++ found_head format left_out image.now order.now) }
{
    match format {
        Format::Text => write_text_head(alloc, out, left_out, order),
        Format::Json => write_json_head(alloc, out, left_out, image, order),
    }
}

/// What stands after the state.
fn tail(format: Format) -> &'static str
    ensures { result.now ≡ found_tail format }
{
    match format {
        Format::Text => "end\n",
        Format::Json => "}}\n",
    }
}

/// The state that was found, and the order that leads to it; and what was left out, if anything
/// was. Fails only when out of memory.
pub fn found_text(
    alloc: Global,
    format: Format,
    left_out: Option<LeftOut>,
    image: &Image,
    order: &[Op],
    state: &Loaded,
) -> Result<String, NoMemory>
    ensures { IfOk result (λ text. string_bytes text
        ≡ said_found left_out format image.now order.now state.now) }
{
    let mut out = String::new(alloc);
    write_head(alloc, format, &mut out, left_out, image, order)?;
    write_state(alloc, format, &mut out, state)?;
    out.push_str(tail(format))?;
    Ok(out)
}
