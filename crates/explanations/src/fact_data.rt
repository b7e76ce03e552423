//! Facts in JSON: the members of an event, with its facts.
#![tactic(auto, unfolding(crate::proofs::Unfold::in_json))]

ghost use Rattle.std.specs.Prelude.{◌≡◌, ◌++◌, [], ◌∷◌, codes, map, drop, IfOk, OnOk, string_bytes};
ghost use Rattle.serde_json.specs.Data.{object, no_members, string, put as with_member};
ghost use Rattle.serde_json.specs.View.{members_view, view as data_of};
ghost use Rattle.explanations.specs.FactData.{
  put_any,
  named_data,
  put_named,
  place_data,
  put_names,
  extent_data,
  cleared_data,
  instruction_data,
  line_data,
  fetched_source,
  why_data,
  step_data,
  put_swept,
  put_clears,
  sweep_data,
  spot_key,
};

use crate::lines::InstructionLines;
use crate::names::{SpotName, SweptName, write_origin};
use crate::reasons::{write_trap_why, write_why};
use cheri_model::{Event, NoMemory};
use facts::{Cleared, Extent, Fetched, NamedValue, StepFacts, Trapped, UpToTwo};
use notation::InstructionText;
use origins::{Place, Spot};
use report_lines::{Hex64, event_members, granule_address, value_members};
use serde_json::{Map, Value, put};
use std::alloc::Global;

/// A value, and where it is tagged its origin.
pub fn named_value_json(alloc: Global, named: NamedValue) -> Result<Value, NoMemory>
    ensures { IfOk result (λ v. data_of v ≡ named_data named) }
{
    let mut members = value_members(alloc, named.value)?;
    if let Some(origin) = named.origin {
        let mut name = String::new(alloc);
        write_origin(&mut name, origin)?;
        put(&mut members, alloc, "from", Value::String(name))?;
    }
    Ok(Value::Object(members))
}

/// The key of a value: a register's name, or a granule's address.
fn spot_key(alloc: Global, spot: Spot) -> Result<String, NoMemory>
    ensures { IfOk result (λ key. string_bytes key ≡ spot_key spot) }
{
    match spot {
        Spot::Granule(number) => granule_address(number as usize).to_string(alloc),
        _ => SpotName(spot).to_string(alloc),
    }
}

/// Puts a value under its key.
fn put_named(
    alloc: Global,
    members: &mut Map<String, Value>,
    named: NamedValue,
) -> Result<(), NoMemory>
    ensures { OnOk result (members_view members.new.entries
        ≡ put_named named (members_view members.old.entries)) }
{
    let key = spot_key(alloc, named.name)?;
    let value = named_value_json(alloc, named)?;
    put(members, alloc, key.as_str(), value)?;
    Ok(())
}

/// Puts an object that has one value.
fn put_place(
    alloc: Global,
    members: &mut Map<String, Value>,
    name: &str,
    named: NamedValue,
) -> Result<(), NoMemory>
    ensures { OnOk result (members_view members.new.entries
        ≡ with_member name.now (place_data named) (members_view members.old.entries)) }
{
    let mut places = Map::new(alloc);
    put_named(alloc, &mut places, named)?;
    put(members, alloc, name, Value::Object(places))?;
    Ok(())
}

/// Puts an object that has two values.
fn put_places(
    alloc: Global,
    members: &mut Map<String, Value>,
    name: &str,
    first: NamedValue,
    second: NamedValue,
) -> Result<(), NoMemory>
    ensures { OnOk result (members_view members.new.entries
        ≡ with_member name.now (object (put_named second (put_named first no_members)))
        (members_view members.old.entries)) }
{
    let mut places = Map::new(alloc);
    put_named(alloc, &mut places, first)?;
    put_named(alloc, &mut places, second)?;
    put(members, alloc, name, Value::Object(places))?;
    Ok(())
}

/// Puts what is read or set, if something is.
fn put_names(
    alloc: Global,
    members: &mut Map<String, Value>,
    name: &str,
    named: UpToTwo<NamedValue>,
) -> Result<(), NoMemory>
    ensures { OnOk result (members_view members.new.entries
        ≡ put_names name.now named (members_view members.old.entries)) }
{
    match named {
        UpToTwo::Zero => Ok(()),
        UpToTwo::One(only) => put_place(alloc, members, name, only),
        UpToTwo::Two(first, second) => put_places(alloc, members, name, first, second),
    }
}

/// Puts a granule, before or after an access that was done.
fn put_granule(
    alloc: Global,
    members: &mut Map<String, Value>,
    name: &str,
    named: Option<NamedValue>,
) -> Result<(), NoMemory>
    ensures { OnOk result (members_view members.new.entries
        ≡ put_any name.now place_data named (members_view members.old.entries)) }
{
    match named {
        Some(granule) => put_place(alloc, members, name, granule),
        None => Ok(()),
    }
}

/// Puts where an access of memory was, if there was one.
fn put_extent(
    alloc: Global,
    members: &mut Map<String, Value>,
    at: Option<Extent>,
) -> Result<(), NoMemory>
    ensures { OnOk result (members_view members.new.entries
        ≡ put_any (codes "at") extent_data at (members_view members.old.entries)) }
{
    if let Some(Extent { address, bytes }) = at {
        let mut extent = Map::new(alloc);
        let address = Hex64(address).to_string(alloc)?;
        put(&mut extent, alloc, "address", Value::String(address))?;
        put(&mut extent, alloc, "bytes", Value::from(bytes))?;
        put(members, alloc, "at", Value::Object(extent))?;
    }
    Ok(())
}

/// Puts what lost its tag and why, if something did.
fn put_cleared(
    alloc: Global,
    members: &mut Map<String, Value>,
    clears: Option<Cleared>,
) -> Result<(), NoMemory>
    ensures { OnOk result (members_view members.new.entries
        ≡ put_any (codes "clears") cleared_data clears (members_view members.old.entries)) }
{
    if let Some(Cleared { name, why }) = clears {
        let name = SpotName(name).to_string(alloc)?;
        let mut text = String::new(alloc);
        write_why(&mut text, why)?;
        let mut places = Map::new(alloc);
        put(&mut places, alloc, name.as_str(), Value::String(text))?;
        put(members, alloc, "clears", Value::Object(places))?;
    }
    Ok(())
}

/// Puts why a step trapped, if it did.
fn put_why(
    alloc: Global,
    members: &mut Map<String, Value>,
    traps: Option<Trapped>,
) -> Result<(), NoMemory>
    ensures { OnOk result (members_view members.new.entries
        ≡ put_any (codes "why") why_data traps (members_view members.old.entries)) }
{
    if let Some(trapped) = traps {
        let mut text = String::new(alloc);
        write_trap_why(&mut text, trapped.why)?;
        put(members, alloc, "why", Value::String(text))?;
    }
    Ok(())
}

/// Puts the text of an instruction, where its fetch passed.
fn put_instruction(
    alloc: Global,
    members: &mut Map<String, Value>,
    fetched: Option<Fetched>,
) -> Result<(), NoMemory>
    ensures { OnOk result (members_view members.new.entries ≡ put_any (codes "instruction")
        instruction_data fetched (members_view members.old.entries)) }
{
    if let Some(Fetched { instr, .. }) = fetched {
        let text = InstructionText(instr.form()).to_string(alloc)?;
        put(members, alloc, "instruction", Value::String(text))?;
    }
    Ok(())
}

/// Puts the number of an instruction's line, where its fetch passed.
fn put_line(
    alloc: Global,
    members: &mut Map<String, Value>,
    lines: &InstructionLines<'_>,
    fetched: Option<Fetched>,
) -> Result<(), NoMemory>
    ensures { OnOk result (members_view members.new.entries
        ≡ put_any (codes "line") (line_data lines.now) fetched (members_view members.old.entries)) }
{
    if let Some(Fetched { number, .. }) = fetched {
        put(members, alloc, "line", Value::from(lines.line_of(number)))?;
    }
    Ok(())
}

/// Puts what an instruction comes from, where its fetch passed and a map says so.
fn put_source(
    alloc: Global,
    members: &mut Map<String, Value>,
    lines: &InstructionLines<'_>,
    fetched: Option<Fetched>,
) -> Result<(), NoMemory>
    ensures { OnOk result (members_view members.new.entries
        ≡ put_any (codes "source") (λ source. string source)
        (fetched_source lines.now fetched) (members_view members.old.entries)) }
{
    if let Some(Fetched { number, .. }) = fetched {
        if let Some(source) = lines.source_of(number) {
            let text = source.to_string(alloc)?;
            put(members, alloc, "source", Value::String(text))?;
        }
    }
    Ok(())
}

/// A step: the members of the report's entry, its number, and its facts.
pub(crate) fn step_json(
    alloc: Global,
    lines: &InstructionLines<'_>,
    number: usize,
    facts: &StepFacts,
) -> Result<Value, NoMemory>
    ensures { IfOk result (λ v. data_of v ≡ step_data lines.now number facts.now) }
{
    let mut members = event_members(alloc, &Event::Step(facts.entry))?;
    put_extent(alloc, &mut members, facts.at)?;
    put_cleared(alloc, &mut members, facts.clears)?;
    put_granule(alloc, &mut members, "finds", facts.finds)?;
    put_instruction(alloc, &mut members, facts.fetched)?;
    put_granule(alloc, &mut members, "leaves", facts.leaves)?;
    put_line(alloc, &mut members, lines, facts.fetched)?;
    put(&mut members, alloc, "number", Value::from(number))?;
    put_names(alloc, &mut members, "reads", facts.reads)?;
    put_names(alloc, &mut members, "sets", facts.sets)?;
    put_source(alloc, &mut members, lines, facts.fetched)?;
    put_why(alloc, &mut members, facts.traps)?;
    Ok(Value::Object(members))
}

/// Puts a place that a sweep cleared.
fn put_swept(alloc: Global, members: &mut Map<String, Value>, place: Place) -> Result<(), NoMemory>
    ensures { OnOk result (members_view members.new.entries
        ≡ put_swept (place ∷ []) (members_view members.old.entries)) }
{
    let name = SweptName(place).to_string(alloc)?;
    let reason = "swept".to_string(alloc)?;
    put(members, alloc, name.as_str(), Value::String(reason))?;
    Ok(())
}

/// The places that a sweep cleared.
fn swept_json(alloc: Global, places: &[Place]) -> Result<Value, NoMemory>
    ensures { IfOk result (λ v. data_of v ≡ object (put_swept places.now no_members)) }
{
    let mut members = Map::new(alloc);
    for place in places {
        put_swept(alloc, &mut members, *place)?;
    }
    Ok(Value::Object(members))
}

/// Puts the places that a sweep cleared, if there are some.
fn put_clears(
    alloc: Global,
    members: &mut Map<String, Value>,
    places: &[Place],
) -> Result<(), NoMemory>
    ensures { OnOk result (members_view members.new.entries
        ≡ put_clears places.now (members_view members.old.entries)) }
{
    match places {
        [] => Ok(()),
        [_, ..] => {
            let swept = swept_json(alloc, places)?;
            put(members, alloc, "clears", swept)?;
            Ok(())
        }
    }
}

/// A sweep: the members of the report's entry, its number, and what it cleared.
pub(crate) fn sweep_json(
    alloc: Global,
    number: usize,
    event: &Event,
    places: &[Place],
) -> Result<Value, NoMemory>
    ensures { IfOk result (λ v. data_of v ≡ sweep_data number event.now places.now) }
{
    let mut members = event_members(alloc, event)?;
    put(&mut members, alloc, "number", Value::from(number))?;
    put_clears(alloc, &mut members, places)?;
    Ok(Value::Object(members))
}
