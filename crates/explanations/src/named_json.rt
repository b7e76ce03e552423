//! Values of facts as JSON text, piece by piece: an explanation has several an event, and a value
//! of `serde_json` takes memory for each of its texts.
#![tactic(auto, unfolding(crate::proofs::Unfold::values))]

ghost use Rattle.std.specs.Prelude.{◌≡◌, ◌++◌, IfOk, OnOk, Some, codes, string_bytes};
ghost use Rattle.std.specs.Option.{option_map};
ghost use Rattle.std.specs.Ordering.{nat_cmp};
ghost use Rattle.std.specs.Cmp.Lexicographic.{slice_cmp};
ghost use Rattle.serde_json.specs.Data.{object, member, no_members};
ghost use Rattle.serde_json.specs.Written.{compact_text};
ghost use Rattle.cap_model.specs.values.CapValue.{bits_of, parts_of};
ghost use Rattle.report_lines.specs.ValueData.{capability_members, untagged_members};
ghost use Rattle.report_lines.specs.ValueText.{hex_text, type_text, word_text};
ghost use Rattle.explanations.specs.FactData.{
  put_any,
  origin_data,
  named_data,
  put_named,
  place_data,
  spot_key,
};
ghost use Rattle.explanations.specs.JsonText.{if_there};

use crate::names::write_origin;
use cap_ops::Cap;
use cheri_model::NoMemory;
use facts::NamedValue;
use itoa::Buffer;
use origins::{Place, Spot};
use report_lines::{Hex, Hex64, granule_address, write_type, write_word};
use std::alloc::Global;
use std::cmp::Ordering;

/// Appends the member of an origin between these texts.
fn write_origin_member(
    out: &mut String,
    before: &str,
    after: &str,
    place: Place,
) -> Result<(), NoMemory>
    ensures { OnOk result (string_bytes out.new ≡ string_bytes out.old
        ++ if_there before.now after.now (Some (origin_data place))) }
{
    out.push_str(before)?;
    out.push_str("\"")?;
    write_origin(out, place)?;
    out.push_str("\"")?;
    out.push_str(after)?;
    Ok(())
}

/// The same, if there is one.
fn write_from(
    out: &mut String,
    before: &str,
    after: &str,
    origin: &Option<Place>,
) -> Result<(), NoMemory>
    ensures { OnOk result (string_bytes out.new ≡ string_bytes out.old
        ++ if_there before.now after.now (option_map origin_data origin.now)) }
{
    match origin {
        Some(place) => write_origin_member(out, before, after, *place),
        None => Ok(()),
    }
}

/// Appends a value that is not tagged, with its origin.
fn write_untagged(out: &mut String, bits: u128, origin: &Option<Place>) -> Result<(), NoMemory>
    ensures { OnOk result (string_bytes out.new ≡ string_bytes out.old ++ compact_text (object
        (put_any (codes "from") origin_data origin.now (untagged_members (word_text bits))))) }
{
    out.push_str("{")?;
    write_from(out, "\"from\":", ",", origin)?;
    out.push_str("\"tag\":false,\"word\":\"")?;
    write_word(out, bits)?;
    out.push_str("\"}")?;
    Ok(())
}

/// Appends the first member of a tagged value: its base.
fn write_base(out: &mut String, value: Cap) -> Result<(), NoMemory>
    ensures { OnOk result (string_bytes out.new ≡ string_bytes out.old
        ++ (codes "{\"base\":\"" ++ (hex_text 16 (parts_of value).base ++ codes "\""))) }
{
    let (base, _) = value.bounds();
    out.push_str("{\"base\":\"")?;
    out.push_str(Buffer::new().format(Hex64(base)))?;
    out.push_str("\"")?;
    Ok(())
}

/// Appends its permissions.
fn write_permissions(out: &mut String, value: Cap) -> Result<(), NoMemory>
    ensures { OnOk result (string_bytes out.new ≡ string_bytes out.old
        ++ (codes ",\"perms\":\"" ++ (hex_text 5 (parts_of value).perms ++ codes "\""))) }
{
    out.push_str(",\"perms\":\"")?;
    out.push_str(Buffer::new().format(Hex::of_perms(value.perm())))?;
    out.push_str("\"")?;
    Ok(())
}

/// Appends its top.
fn write_top(out: &mut String, value: Cap) -> Result<(), NoMemory>
    ensures { OnOk result (string_bytes out.new ≡ string_bytes out.old
        ++ (codes ",\"top\":\"" ++ (hex_text 17 (parts_of value).top ++ codes "\""))) }
{
    let (_, top) = value.bounds();
    out.push_str(",\"top\":\"")?;
    out.push_str(Buffer::new().format(Hex::of_top(top)))?;
    out.push_str("\"")?;
    Ok(())
}

/// Appends its object type and its word.
fn write_type_and_word(out: &mut String, value: Cap) -> Result<(), NoMemory>
    ensures { OnOk result (string_bytes out.new ≡ string_bytes out.old
        ++ (codes ",\"type\":\"" ++ (type_text (parts_of value).otype
        ++ (codes "\",\"word\":\"" ++ (word_text (bits_of value) ++ codes "\"}"))))) }
{
    out.push_str(",\"type\":\"")?;
    write_type(out, value.object_type())?;
    out.push_str("\",\"word\":\"")?;
    write_word(out, value.bits())?;
    out.push_str("\"}")?;
    Ok(())
}

/// Appends a tagged value, with its origin.
fn write_tagged(out: &mut String, value: Cap, origin: &Option<Place>) -> Result<(), NoMemory>
    ensures { OnOk result (string_bytes out.new ≡ string_bytes out.old ++ compact_text (object
        (put_any (codes "from") origin_data origin.now (capability_members
        (hex_text 16 (parts_of value).base) (hex_text 5 (parts_of value).perms)
        (hex_text 17 (parts_of value).top) (type_text (parts_of value).otype)
        (word_text (bits_of value)))))) }
{
    write_base(out, value)?;
    write_from(out, ",\"from\":", "", origin)?;
    write_permissions(out, value)?;
    out.push_str(",\"tag\":true")?;
    write_top(out, value)?;
    write_type_and_word(out, value)?;
    Ok(())
}

/// Appends a value, and where it is tagged its origin.
fn write_named(out: &mut String, named: &NamedValue) -> Result<(), NoMemory>
    ensures { OnOk result (string_bytes out.new
        ≡ string_bytes out.old ++ compact_text (named_data named.now)) }
{
    if named.value.tag() {
        write_tagged(out, named.value, &named.origin)
    } else {
        write_untagged(out, named.value.bits(), &named.origin)
    }
}

/// Appends the key of a value: a register's name, or a granule's address.
pub(crate) fn write_key(out: &mut String, spot: Spot) -> Result<(), NoMemory>
    ensures { OnOk result (string_bytes out.new ≡ string_bytes out.old ++ spot_key spot) }
{
    match spot {
        Spot::Pcc => out.push_str("pcc"),
        Spot::Register(number) => {
            out.push_str("c")?;
            out.push_str(Buffer::new().format(number))
        }
        Spot::Granule(number) => {
            out.push_str(Buffer::new().format(granule_address(number as usize)))
        }
    }
}

/// Appends a value under a key, without the brackets of its object.
fn write_member(
    out: &mut String,
    before: &str,
    spot: Spot,
    named: &NamedValue,
) -> Result<(), NoMemory>
    ensures { OnOk result (string_bytes out.new ≡ string_bytes out.old
        ++ (before.now
        ++ (spot_key spot ++ (codes "\":" ++ compact_text (named_data named.now))))) }
{
    out.push_str(before)?;
    write_key(out, spot)?;
    out.push_str("\":")?;
    write_named(out, named)
}

/// Appends an object that has one value, under this key.
fn write_under(out: &mut String, spot: Spot, named: &NamedValue) -> Result<(), NoMemory>
    ensures { OnOk result (string_bytes out.new ≡ string_bytes out.old ++ compact_text (object
        (member (spot_key spot) (named_data named.now) no_members))) }
{
    write_member(out, "{\"", spot, named)?;
    out.push_str("}")?;
    Ok(())
}

/// Appends an object that has one value.
pub(crate) fn write_place(out: &mut String, named: &NamedValue) -> Result<(), NoMemory>
    ensures { OnOk result (string_bytes out.new
        ≡ string_bytes out.old ++ compact_text (place_data named.now)) }
{
    write_under(out, named.name, named)
}

/// Appends an object that has two values, in this order.
fn write_both(out: &mut String, first: &NamedValue, second: &NamedValue) -> Result<(), NoMemory>
    ensures { OnOk result (string_bytes out.new ≡ string_bytes out.old ++ compact_text (object
        (member (spot_key first.now.name) (named_data first.now)
        (member (spot_key second.now.name) (named_data second.now) no_members)))) }
{
    write_member(out, "{\"", first.name, first)?;
    write_member(out, ",\"", second.name, second)?;
    out.push_str("}")?;
    Ok(())
}

/// The order of the keys of two places that are not both of a hart.
fn keys_order(alloc: Global, spot: Spot, other: Spot) -> Result<Ordering, NoMemory>
    ensures { IfOk result (λ order. order
        ≡ slice_cmp nat_cmp (spot_key spot) (spot_key other)) }
{
    let mut first = String::new(alloc);
    let mut second = String::new(alloc);
    write_key(&mut first, spot)?;
    write_key(&mut second, other)?;
    Ok(first.as_str().cmp(second.as_str()))
}

/// The order of the names of two registers.
fn register_order(number: u8, other: u8) -> Ordering
    ensures { result ≡ slice_cmp nat_cmp (spot_key (Spot.Register number))
        (spot_key (Spot.Register other)) }
{
    Buffer::new()
        .format(number)
        .cmp(Buffer::new().format(other))
}

/// The order of the keys of two places.
fn key_order(alloc: Global, spot: Spot, other: Spot) -> Result<Ordering, NoMemory>
    ensures { IfOk result (λ order. order
        ≡ slice_cmp nat_cmp (spot_key spot) (spot_key other)) }
{
    match (spot, other) {
        (Spot::Register(number), Spot::Register(second)) => Ok(register_order(number, second)),
        (Spot::Pcc, Spot::Register(_)) => Ok(Ordering::Greater),
        (Spot::Register(_), Spot::Pcc) => Ok(Ordering::Less),
        _ => keys_order(alloc, spot, other),
    }
}

/// Appends an object into which a value is put, and then another.
pub(crate) fn write_places(
    alloc: Global,
    out: &mut String,
    first: &NamedValue,
    second: &NamedValue,
) -> Result<(), NoMemory>
    ensures { OnOk result (string_bytes out.new ≡ string_bytes out.old ++ compact_text (object
        (put_named second.now (put_named first.now no_members)))) }
{
    match key_order(alloc, second.name, first.name)? {
        Ordering::Less => write_both(out, second, first),
        Ordering::Greater => write_both(out, first, second),
        Ordering::Equal => write_under(out, first.name, second),
    }
}
