//! The state of a machine that is followed, in JSON.
#![tactic(auto, using(crate::proofs::StateLemmas::state_no_float), unfolding(crate::proofs::Unfold::state))]

ghost use Rattle.std.specs.Prelude.{◌≡◌, ◌<◌, ◌++◌, IfOk, OnOk, length, string_bytes};
ghost use Rattle.serde_json.specs.Data.{no_members, object, array};
ghost use Rattle.serde_json.specs.View.{members_view, items_of, view as data_of};
ghost use Rattle.serde_json.specs.Written.{compact_text};
ghost use Rattle.report_lines.specs.Names.{address_of_granule, register_name};
ghost use Rattle.report_lines.specs.ValueText.{hex_text};
ghost use Rattle.origins.specs.declared.place.Spot.TheVariants.{Register, Granule};
ghost use Rattle.origins.specs.Places.{place_of};
ghost use Rattle.facts.specs.StepFacts.{origin_of};
ghost use Rattle.following.specs.Following.{IsPlaceOf, origins_now};
ghost use Rattle.explained_page.specs.State.{
  put_value,
  put_registers,
  hart_data,
  harts_from,
  put_granules,
  state_data,
};

use cap_ops::Cap;
use cheri_model::{NoMemory, Reg, Status, Trap};
use explanations::named_value_json;
use facts::NamedValue;
use following::Follower;
use hart::Hart;
use origins::Spot;
use report_lines::{granule_address, is_listed, write_json_value};
use serde_json::{Map, Value, json, put};
use std::alloc::{AllocError, Global};

/// What is in a place that the hart with this number names, with its origin where it is tagged.
fn named(follower: &Follower, hart: u8, name: Spot, value: Cap) -> NamedValue
    requires { IsPlaceOf follower.now (place_of hart name) }
    ensures { result ≡ origin_of (origins_now follower.now) hart name value }
{
    let place = follower.origin(name.of(hart));
    let origin = if value.tag() { Some(place) } else { None };
    NamedValue {
        name,
        value,
        origin,
    }
}

/// Puts a register under its name, unless it is null.
fn put_register(
    alloc: Global,
    members: &mut Map<String, Value>,
    follower: &Follower,
    hart: u8,
    number: u8,
    value: Cap,
) -> Result<(), NoMemory>
    requires hart { hart < length follower.now.state.harts }
    requires register { number < 32 }
    ensures { OnOk result (members_view members.new.entries ≡ put_value (register_name number)
        (origin_of (origins_now follower.now) hart (Register number) value)
        (members_view members.old.entries)) }
{
    if is_listed(value) {
        let name = format!(in alloc; "c{number}")?;
        let value = named_value_json(alloc, named(follower, hart, Spot::Register(number), value))?;
        put(members, alloc, name.as_str(), value)?;
    }
    Ok(())
}

/// The registers c1 to c31 of a hart that are not null.
fn registers_json(
    alloc: Global,
    follower: &Follower,
    number: u8,
    hart: &Hart,
) -> Result<Value, NoMemory>
    requires { number < length follower.now.state.harts }
    ensures { IfOk result (λ v. data_of v ≡ object
        (put_registers (origins_now follower.now) number hart.now 1 31 no_members)) }
{
    let mut members = Map::new(alloc);
    for register in 1..32 {
        let value = hart.register(Reg::new(register));
        put_register(alloc, &mut members, follower, number, register, value)?;
    }
    Ok(Value::Object(members))
}

/// A hart.
fn hart_json(alloc: Global, follower: &Follower, number: u8, hart: &Hart) -> Result<Value, NoMemory>
    requires { number < length follower.now.state.harts }
    ensures { IfOk result (λ v. data_of v
        ≡ hart_data (origins_now follower.now) number hart.now) }
{
    let pcc = named_value_json(alloc, named(follower, number, Spot::Pcc, hart.pcc()))?;
    let regs = registers_json(alloc, follower, number, hart)?;
    match hart.status() {
        Status::Running => json!(in alloc; {"pcc": pcc, "regs": regs, "status": "running"}),
        Status::Halted => json!(in alloc; {"pcc": pcc, "regs": regs, "status": "halted"}),
        Status::Trapped(Trap { cause, reg }) => json!(in alloc; {
            "cause": cause, "pcc": pcc, "reg": reg, "regs": regs, "status": "trapped"
        }),
    }
}

/// The harts, in their order.
fn harts_json(alloc: Global, follower: &Follower) -> Result<Value, NoMemory>
    ensures { IfOk result (λ v. data_of v ≡ array
        (items_of (harts_from (origins_now follower.now) 0 follower.now.state.harts))) }
{
    let view = follower.view();
    let mut values = Vec::new(alloc);
    for (place, hart) in view.harts.iter().enumerate() {
        // An image has at most eight harts, which no clause of a follower says.
        if place > 255 {
            return Err(AllocError);
        }
        values.push(hart_json(alloc, follower, place as u8, hart)?)?;
    }
    Ok(Value::Array(values))
}

/// Puts a granule under its address, unless it is an untagged 0.
fn put_granule(
    alloc: Global,
    members: &mut Map<String, Value>,
    follower: &Follower,
    number: u32,
    value: Cap,
) -> Result<(), NoMemory>
    requires { number < length follower.now.state.memory }
    ensures { OnOk result (members_view members.new.entries
        ≡ put_value (hex_text 16 (address_of_granule number))
        (origin_of (origins_now follower.now) 0 (Granule number) value)
        (members_view members.old.entries)) }
{
    if is_listed(value) {
        let name = granule_address(number as usize).to_string(alloc)?;
        let value = named_value_json(alloc, named(follower, 0, Spot::Granule(number), value))?;
        put(members, alloc, name.as_str(), value)?;
    }
    Ok(())
}

/// The granules that are tagged or not all 0, under their addresses.
fn granules_json(alloc: Global, follower: &Follower) -> Result<Value, NoMemory>
    ensures { IfOk result (λ v. data_of v ≡ object
        (put_granules (origins_now follower.now) 0 follower.now.state.memory no_members)) }
{
    let ram = follower.view().ram;
    let mut members = Map::new(alloc);
    for number in 0..ram.granule_count() {
        put_granule(
            alloc,
            &mut members,
            follower,
            number as u32,
            ram.granule(number),
        )?;
    }
    Ok(Value::Object(members))
}

/// The state of a machine that is followed, in JSON: `harts` and `mem` as in a report, each tagged
/// value with its origin as `from`. Fails only when out of memory.
pub fn state_json(alloc: Global, follower: &Follower) -> Result<Value, NoMemory>
    ensures { IfOk result (λ v. data_of v
        ≡ state_data (origins_now follower.now) follower.now.state) }
{
    let harts = harts_json(alloc, follower)?;
    let mem = granules_json(alloc, follower)?;
    json!(in alloc; {"harts": harts, "mem": mem})
}

/// Appends the state of a machine that is followed, as its compact text in JSON.
pub fn write_state(alloc: Global, out: &mut String, follower: &Follower) -> Result<(), NoMemory>
    ensures { OnOk result (string_bytes out.new ≡ string_bytes out.old
        ++ compact_text (state_data (origins_now follower.now) follower.now.state)) }
{
    write_json_value(alloc, out, state_json(alloc, follower)?)
}
