//! Values in JSON.

#![tactic(auto, unfolding(crate::specs::ValueData::value_members))]

ghost use Rattle.std.specs.Prelude.{◌≡◌, IfOk, OnOk};
ghost use Rattle.serde_json.specs.View.{members_view, view as data_of};
ghost use Rattle.report_lines.specs.Names.{address_of_granule, register_name};
ghost use Rattle.report_lines.specs.ValueData.{put_listed, put_parts, value_data, value_members};
ghost use Rattle.report_lines.specs.ValueText.{hex_text};

use crate::digits::Hex;
use crate::members::{put_address, put_digits};
use crate::names::granule_address;
use crate::value_text::{TypeText, Word, is_listed};
use cap_ops::Cap;
use cheri_model::NoMemory;
use serde_json::{Map, Value, put};
use std::alloc::Global;

/// Puts what a capability is that is tagged: its bounds, permissions and object type.
fn put_parts(alloc: Global, members: &mut Map<String, Value>, held: Cap) -> Result<(), NoMemory>
    ensures { OnOk result (members_view members.new.entries
        ≡ put_parts held (members_view members.old.entries)) }
{
    let (base, top) = held.bounds();
    put_address(alloc, members, "base", base)?;
    put_digits(alloc, members, "perms", Hex::of_perms(held.perm()))?;
    put_digits(alloc, members, "top", Hex::of_top(top))?;
    let otype = TypeText(held.object_type()).to_string(alloc)?;
    put(members, alloc, "type", Value::from(otype))
}

/// The members of a value in JSON, to which a caller may add more.
pub fn value_members(alloc: Global, held: Cap) -> Result<Map<String, Value>, NoMemory>
    ensures { IfOk result (λ m. members_view m.entries ≡ value_members held) }
{
    let mut members = Map::new(alloc);
    put(&mut members, alloc, "tag", Value::from(held.tag()))?;
    let word = Word(held.bits()).to_string(alloc)?;
    put(&mut members, alloc, "word", Value::from(word))?;
    if held.tag() {
        put_parts(alloc, &mut members, held)?;
    }
    Ok(members)
}

/// A value in JSON.
pub fn value_json(alloc: Global, held: Cap) -> Result<Value, NoMemory>
    ensures { IfOk result (λ v. data_of v ≡ value_data held) }
{
    Ok(Value::from(value_members(alloc, held)?))
}

/// Puts a register under its name, unless it is null.
pub fn put_register(
    alloc: Global,
    members: &mut Map<String, Value>,
    number: u8,
    held: Cap,
) -> Result<(), NoMemory>
    ensures { OnOk result (members_view members.new.entries
        ≡ put_listed (register_name number) held (members_view members.old.entries)) }
{
    if is_listed(held) {
        let name = format!(in alloc; "c{number}")?;
        let value = value_json(alloc, held)?;
        put(members, alloc, name.as_str(), value)?;
    }
    Ok(())
}

/// Puts the granule with this number under its address, unless it is an untagged 0.
pub fn put_granule(
    alloc: Global,
    members: &mut Map<String, Value>,
    number: usize,
    value: Cap,
) -> Result<(), NoMemory>
    ensures { OnOk result (members_view members.new.entries
        ≡ put_listed (hex_text 16 (address_of_granule number)) value
        (members_view members.old.entries)) }
{
    if is_listed(value) {
        let name = granule_address(number).to_string(alloc)?;
        let value = value_json(alloc, value)?;
        put(members, alloc, name.as_str(), value)?;
    }
    Ok(())
}
