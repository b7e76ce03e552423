//! Members of JSON objects. Each call puts one, so that no caller keeps a value over another call.

ghost use Rattle.std.specs.Prelude.{◌≡◌, OnOk};
ghost use Rattle.serde_json.specs.Data.{string, put as with_member};
ghost use Rattle.serde_json.specs.View.{members_view};
ghost use Rattle.report_lines.specs.ValueData.{count};
ghost use Rattle.report_lines.specs.ValueText.{hex_text};

use crate::digits::Hex;
use cheri_model::NoMemory;
use serde_json::{Map, Value, put};
use std::alloc::Global;
use text_numbers::Hex64;

/// Puts a number.
pub(crate) fn put_count(
    alloc: Global,
    members: &mut Map<String, Value>,
    name: &str,
    number: u64,
) -> Result<(), NoMemory>
    ensures { OnOk result (members_view members.new.entries
        ≡ with_member name.now (count number) (members_view members.old.entries)) }
{
    put(members, alloc, name, Value::from(number))
}

/// Puts a text.
pub(crate) fn put_text(
    alloc: Global,
    members: &mut Map<String, Value>,
    name: &str,
    text: &str,
) -> Result<(), NoMemory>
    ensures { OnOk result (members_view members.new.entries
        ≡ with_member name.now (string text.now) (members_view members.old.entries)) }
{
    put(members, alloc, name, Value::try_from_str(alloc, text)?)
}

/// Puts an address, or the base of bounds, by its 16 digits.
pub(crate) fn put_address(
    alloc: Global,
    members: &mut Map<String, Value>,
    name: &str,
    address: u64,
) -> Result<(), NoMemory>
    ensures { OnOk result (members_view members.new.entries
        ≡ with_member name.now (string (hex_text 16 address))
        (members_view members.old.entries)) }
{
    put(
        members,
        alloc,
        name,
        Value::from(Hex64(address).to_string(alloc)?),
    )
}

/// Puts a number by its digits.
pub(crate) fn put_digits(
    alloc: Global,
    members: &mut Map<String, Value>,
    name: &str,
    digits: Hex,
) -> Result<(), NoMemory>
    ensures { OnOk result (members_view members.new.entries
        ≡ with_member name.now (string (hex_text digits.width digits.number))
        (members_view members.old.entries)) }
{
    put(members, alloc, name, Value::from(digits.to_string(alloc)?))
}
