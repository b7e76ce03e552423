//! What is read of JSON.
#![tactic(auto, unfolding(crate::proofs::Unfold::members))]

ghost use Rattle.std.specs.Prelude.{◌≡◌, ◌≤◌, IfSome, option_map};
ghost use Rattle.serde_json.specs.Find.{as_array, get};
ghost use Rattle.serde_json.specs.View.{items_view, view as data_of};
ghost use Rattle.sample_slices.specs.Members.{list_in, number_at, number_in, number_within};
ghost use Rattle.sample_slices.specs.Members.{text_in};

use serde_json::Value;

/// A member, if it is there.
pub(crate) fn member<'v>(value: &'v Value, name: &str) -> Option<&'v Value>
    ensures { option_map (λ v. data_of v.now) result ≡ get name.now (data_of value.now) }
{
    value.get(name)
}

/// A number that is at most so great.
pub(crate) fn number_within(value: &Value, limit: u64) -> Option<u64>
    ensures is { result ≡ number_within limit (data_of value.now) }
    ensures within { IfSome result (λ number. number ≤ limit) }
{
    let number = value.as_u64()?;
    if number <= limit { Some(number) } else { None }
}

/// That of a member.
pub(crate) fn number_in(value: &Value, name: &str, limit: u64) -> Option<u64>
    ensures is { result ≡ number_in name.now limit (data_of value.now) }
    ensures within { IfSome result (λ number. number ≤ limit) }
{
    let found = member(value, name)?;
    number_within(found, limit)
}

/// That of an item of a list.
pub(crate) fn number_at(value: &Value, place: usize, limit: u64) -> Option<u64>
    ensures is { result ≡ number_at place limit (data_of value.now) }
    ensures within { IfSome result (λ number. number ≤ limit) }
{
    let found = value.get(place)?;
    number_within(found, limit)
}

/// The text of a member.
pub(crate) fn text_in<'v>(value: &'v Value, name: &str) -> Option<&'v str>
    ensures { option_map (λ text. text.now) result ≡ text_in name.now (data_of value.now) }
{
    let found = member(value, name)?;
    found.as_str()
}

/// The items of a list.
pub(crate) fn items_of(value: &Value) -> Option<&[Value]>
    ensures { option_map (λ list. items_view list.now) result ≡ as_array (data_of value.now) }
{
    let list = value.as_array()?;
    Some(list.as_slice())
}

/// The items of a member, where it is a list.
pub(crate) fn list_in<'v>(value: &'v Value, name: &str) -> Option<&'v [Value]>
    ensures { option_map (λ list. items_view list.now) result
        ≡ list_in name.now (data_of value.now) }
{
    let found = member(value, name)?;
    items_of(found)
}
