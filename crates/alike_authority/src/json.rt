//! An answer in JSON.

ghost use Rattle.std.specs.Prelude.{◌≡◌, ◌++◌, IfOk, OnOk, string_bytes};
ghost use Rattle.serde_json.specs.View.{view as data_of};
ghost use Rattle.serde_json.specs.Written.{compact_text};
ghost use Rattle.alike_authority.specs.AlikeAuthorityTexts.{alike_data, alike_object, parts_of};
ghost use Rattle.report_lines.specs.Texts.{line};

use crate::heads::Head;
use authority_texts::{Told, harts_json, list_json};
use cheri_model::NoMemory;
use reduced_texts::reduced_value;
use report_lines::{image_json, write_json_value};
use serde_json::{Map, Value, put};
use std::alloc::Global;

/// The values of the members that are lists or objects.
#[derive(Drop)]
struct Members {
    harts: Value,
    image: Value,
    memory: Value,
    reduced: Value,
}

/// The whole object, of values.
#[tactic(auto, unfolding(crate::specs::AlikeAuthorityTexts::alike_object))]
fn object_of(alloc: Global, complete: bool, states: u32, values: Members) -> Result<Value, NoMemory>
    ensures { IfOk result (λ v. data_of v ≡ alike_object complete (data_of values.harts)
        (data_of values.image) (data_of values.memory) (data_of values.reduced) states) }
{
    let version: u8 = 2;
    let mut members = Map::new(alloc);
    put(&mut members, alloc, "complete", Value::from(complete))?;
    put(&mut members, alloc, "explore", Value::from(version))?;
    put(&mut members, alloc, "harts", values.harts)?;
    put(&mut members, alloc, "image", values.image)?;
    put(&mut members, alloc, "memory", values.memory)?;
    put(&mut members, alloc, "reduced", values.reduced)?;
    put(&mut members, alloc, "states", Value::from(states))?;
    Ok(Value::Object(members))
}

/// Appends the object's line.
pub(crate) fn write_json(
    alloc: Global,
    out: &mut String,
    head: Head<'_>,
    harts: &[Vec<Told>],
    memory: &[Told],
) -> Result<(), NoMemory>
    ensures { OnOk result (string_bytes out.new ≡ string_bytes out.old
        ++ line (compact_text (alike_data (parts_of head.entry.left_out head.entry.complete
        head.entry.image.now head.entry.states) harts.now memory.now))) }
{
    let values = Members {
        harts: harts_json(alloc, harts)?,
        image: image_json(alloc, head.image)?,
        memory: list_json(alloc, memory)?,
        reduced: reduced_value(alloc, head.left_out)?,
    };
    let object = object_of(alloc, head.complete, head.states, values)?;
    write_json_value(alloc, out, object)?;
    out.push_str("\n")?;
    Ok(())
}
