//! The JSON report: what the report shows, for scripts.
#![tactic(auto, unfolding(crate::proofs::Unfold::json))]

ghost use Rattle.std.specs.Prelude.{◌≡◌, IfOk, OnOk, string_bytes};
ghost use Rattle.hart.specs.View.{state_of};
ghost use Rattle.reports.specs.Json.{events_data, hart_data, harts_data, json_report};
ghost use Rattle.reports.specs.Json.{memory_data, put_registers, put_status};
ghost use Rattle.serde_json.specs.Data.{no_members, object};
ghost use Rattle.serde_json.specs.View.{members_view, view as data_of};
ghost use Rattle.serde_json.specs.Written.{compact_text};

pub mod pieces;
pub mod state;

use crate::report::version_of;
use cheri_model::{Event, NoMemory, Reg, Status, Trap};
use hart::{Hart, View};
use report_lines::{event_json, image_json, put_granule, put_register, value_json};
use serde_json::{Map, Value, put};
use std::alloc::Global;
use tagged_mem::Ram;

/// The events of the trace.
fn events_json(alloc: Global, events: &[Event]) -> Result<Value, NoMemory>
    ensures { IfOk result (λ v. data_of v ≡ events_data events.now) }
{
    let mut values = Vec::new(alloc);
    for event in events {
        values.push(event_json(alloc, event)?)?;
    }
    Ok(Value::Array(values))
}

/// The registers c1 to c31 that are not null.
fn registers_json(alloc: Global, hart: &Hart) -> Result<Value, NoMemory>
    ensures { IfOk result (λ v. data_of v ≡ object (put_registers hart.now 1 31 no_members)) }
{
    let mut members = Map::new(alloc);
    for number in 1..32 {
        put_register(alloc, &mut members, number, hart.register(Reg::new(number)))?;
    }
    Ok(Value::Object(members))
}

/// Puts how a hart stands, and of one that trapped the trap.
pub fn put_status(
    alloc: Global,
    members: &mut Map<String, Value>,
    status: Status,
) -> Result<(), NoMemory>
    ensures { OnOk result (members_view members.new.entries
        ≡ put_status status (members_view members.old.entries)) }
{
    let word = match status {
        Status::Running => "running",
        Status::Halted => "halted",
        Status::Trapped(Trap { cause, reg }) => {
            put(members, alloc, "cause", Value::from(cause))?;
            put(members, alloc, "reg", Value::from(reg))?;
            "trapped"
        },
    };
    put(members, alloc, "status", Value::try_from_str(alloc, word)?)
}

/// A hart.
fn hart_json(alloc: Global, hart: &Hart) -> Result<Value, NoMemory>
    ensures { IfOk result (λ v. data_of v ≡ hart_data hart.now) }
{
    let mut members = Map::new(alloc);
    put(&mut members, alloc, "pcc", value_json(alloc, hart.pcc())?)?;
    put(&mut members, alloc, "regs", registers_json(alloc, hart)?)?;
    put_status(alloc, &mut members, hart.status())?;
    Ok(Value::Object(members))
}

/// The harts of a state in JSON: a list.
pub fn harts_json(alloc: Global, harts: &[Hart]) -> Result<Value, NoMemory>
    ensures { IfOk result (λ v. data_of v ≡ harts_data harts.now) }
{
    let mut values = Vec::new(alloc);
    for hart in harts {
        values.push(hart_json(alloc, hart)?)?;
    }
    Ok(Value::Array(values))
}

/// The granules of a state in JSON: an object of those that are tagged or not all 0, under their
/// addresses.
pub fn granules_json(alloc: Global, ram: &Ram) -> Result<Value, NoMemory>
    ensures { IfOk result (λ v. data_of v ≡ memory_data ram.now) }
{
    let mut members = Map::new(alloc);
    for number in 0..ram.granule_count() {
        put_granule(alloc, &mut members, number, ram.granule(number))?;
    }
    Ok(Value::Object(members))
}

/// The whole report as one value.
fn report_value(alloc: Global, view: View<'_>) -> Result<Value, NoMemory>
    ensures { IfOk result (λ v. data_of v
        ≡ json_report view.entry.image.now view.entry.entries.now (state_of view.entry)) }
{
    let mut members = Map::new(alloc);
    put(
        &mut members,
        alloc,
        "entries",
        events_json(alloc, view.entries)?,
    )?;
    put(&mut members, alloc, "harts", harts_json(alloc, view.harts)?)?;
    put(&mut members, alloc, "image", image_json(alloc, view.image)?)?;
    put(&mut members, alloc, "mem", granules_json(alloc, view.ram)?)?;
    let version = version_of(view.entries);
    put(&mut members, alloc, "report", Value::from(version))?;
    Ok(Value::Object(members))
}

/// The JSON report of what a view shows: compact, with its keys in byte order. Fails only when
/// out of memory.
pub fn report_json(alloc: Global, view: View<'_>) -> Result<String, NoMemory>
    ensures { IfOk result (λ text. string_bytes text ≡ compact_text
        (json_report view.entry.image.now view.entry.entries.now (state_of view.entry))) }
{
    report_value(alloc, view)?.to_string(alloc)
}
