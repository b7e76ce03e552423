//! The items that a line says are shown.
#![tactic(auto, unfolding(crate::proofs::Unfold::items))]

ghost use Rattle.std.specs.Prelude.{◌≡◌, IfOk, Some, is_some, option_map, string_bytes};
ghost use Rattle.serde_json.specs.View.{items_view, view as data_of};
ghost use Rattle.sample_slices.specs.Drawn.{item_step, items_in, items_text, text_of_items};
ghost use Rattle.sample_slices.specs.Members.{GivesSeen, Steps, all_steps};
ghost use Rattle.sample_slices.specs.Slices.{AreItems, items_shown};

use crate::fault::LineFault;
use crate::members::{items_of, member};
use cheri_model::{Image, NoMemory};
use condition_texts::{TextFault, read_items};
use serde_json::Value;
use std::alloc::{AllocError, Global};

/// One text more.
fn add_item(value: &Value, texts: &mut String) -> Result<(), LineFault>
    ensures { Steps result (string_bytes texts.new)
        (item_step (data_of value.now) (string_bytes texts.old)) }
{
    let text = value.as_str().ok_or(LineFault::Form)?;
    if !texts.is_empty() {
        texts.push_str(",")?;
    }
    texts.push_str(text)?;
    Ok(())
}

/// Adds those of a list.
fn add_items(list: &[Value], texts: &mut String) -> Result<(), LineFault>
    ensures { Steps result (string_bytes texts.new)
        (all_steps item_step (items_view list.now) (string_bytes texts.old)) }
{
    for item in list {
        add_item(item, texts)?;
    }
    Ok(())
}

/// The texts of a list, separated by commas.
fn items_text(alloc: Global, value: &Value) -> Result<String, LineFault>
    ensures { GivesSeen string_bytes result (items_text (data_of value.now)) }
{
    let list = items_of(value).ok_or(LineFault::Form)?;
    let mut texts = String::new(alloc);
    add_items(list, &mut texts)?;
    Ok(texts)
}

/// Whether a text writes items of this image.
fn are_items(alloc: Global, image: &Image, text: &str) -> Result<bool, NoMemory>
    ensures { IfOk result (λ are. are ≡ is_some (items_shown image.now (Some text.now))) }
{
    match read_items(alloc, image, text) {
        Ok(_) => Ok(true),
        Err(TextFault::NoMemory) => Err(AllocError),
        Err(_) => Ok(false),
    }
}

/// A text that writes items of this image.
fn text_of_items(alloc: Global, image: &Image, text: String) -> Result<String, LineFault>
    ensures text { GivesSeen string_bytes result (text_of_items image.now (string_bytes text)) }
    ensures items { IfOk result (λ text. AreItems image.now (Some (string_bytes text))) }
{
    if are_items(alloc, image, text.as_str())? {
        Ok(text)
    } else {
        Err(LineFault::Form)
    }
}

/// The text of the items that are shown, if some are.
pub(crate) fn items_in(
    alloc: Global,
    image: &Image,
    value: &Value,
) -> Result<Option<String>, LineFault>
    ensures text { GivesSeen (option_map string_bytes) result
        (items_in image.now (data_of value.now)) }
    ensures items { IfOk result (λ text. AreItems image.now (option_map string_bytes text)) }
{
    match member(value, "items") {
        None => Ok(None),
        Some(found) => {
            let text = items_text(alloc, found)?;
            let text = text_of_items(alloc, image, text)?;
            Ok(Some(text))
        }
    }
}
