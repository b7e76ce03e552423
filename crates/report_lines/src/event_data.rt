//! Events and images in JSON.

#![tactic(auto, unfolding(crate::proofs::Unfold::events))]

ghost use Rattle.std.specs.Prelude.{◌≡◌, IfOk, OnOk};
ghost use Rattle.cheri_model.specs.declared.operation.Event.TheVariants as event;
ghost use Rattle.serde_json.specs.View.{members_view, view as data_of};
ghost use Rattle.report_lines.specs.EventData.{event_data, event_members, image_data};
ghost use Rattle.report_lines.specs.EventData.{put_outcome};

use crate::digits::Hex;
use crate::members::{put_address, put_count, put_digits, put_text};
use cheri_model::{Entry, Event, Image, NoMemory, Outcome, Trap};
use serde_json::{Map, Value};
use std::alloc::Global;

/// Puts how a step ended, and of a trap its cause and register.
fn put_outcome(
    alloc: Global,
    members: &mut Map<String, Value>,
    outcome: Outcome,
) -> Result<(), NoMemory>
    ensures { OnOk result (members_view members.new.entries
        ≡ put_outcome outcome (members_view members.old.entries)) }
{
    let word = match outcome {
        Outcome::Done => "done",
        Outcome::Halt => "halt",
        Outcome::Trap(Trap { cause, reg }) => {
            put_count(alloc, members, "cause", u64::from(cause))?;
            put_count(alloc, members, "reg", u64::from(reg))?;
            "trap"
        }
    };
    put_text(alloc, members, "outcome", word)
}

/// The members of a step.
fn step_members(alloc: Global, entry: &Entry) -> Result<Map<String, Value>, NoMemory>
    ensures { IfOk result (λ m. members_view m.entries ≡ event_members (event.Step entry.now)) }
{
    let mut members = Map::new(alloc);
    put_count(alloc, &mut members, "hart", u64::from(entry.hart))?;
    put_address(alloc, &mut members, "pc", entry.pc)?;
    put_outcome(alloc, &mut members, entry.outcome)?;
    Ok(members)
}

/// The members of a sweep.
fn sweep_members(
    alloc: Global,
    lo: u64,
    hi: u128,
    cleared: u32,
) -> Result<Map<String, Value>, NoMemory>
    ensures { IfOk result (λ m. members_view m.entries
        ≡ event_members (event.Sweep cleared lo hi)) }
{
    let mut members = Map::new(alloc);
    put_count(alloc, &mut members, "cleared", u64::from(cleared))?;
    put_digits(alloc, &mut members, "hi", Hex::of_top(hi))?;
    put_address(alloc, &mut members, "lo", lo)?;
    put_text(alloc, &mut members, "outcome", "sweep")?;
    Ok(members)
}

/// The members of an event in JSON, to which a caller may add more.
pub fn event_members(alloc: Global, event: &Event) -> Result<Map<String, Value>, NoMemory>
    ensures { IfOk result (λ m. members_view m.entries ≡ event_members event.now) }
{
    match event {
        Event::Step(entry) => step_members(alloc, entry),
        Event::Sweep { lo, hi, cleared } => sweep_members(alloc, *lo, *hi, *cleared),
    }
}

/// An event of a trace in JSON.
pub fn event_json(alloc: Global, event: &Event) -> Result<Value, NoMemory>
    ensures { IfOk result (λ v. data_of v ≡ event_data event.now) }
{
    Ok(Value::from(event_members(alloc, event)?))
}

/// What a machine starts from, in JSON: how many instructions, harts and bytes of RAM.
pub fn image_json(alloc: Global, image: &Image) -> Result<Value, NoMemory>
    ensures { IfOk result (λ v. data_of v ≡ image_data image.now) }
{
    let mut members = Map::new(alloc);
    put_count(alloc, &mut members, "code", image.program().len() as u64)?;
    put_count(alloc, &mut members, "harts", image.harts().len() as u64)?;
    put_count(alloc, &mut members, "ram", u64::from(image.ram()))?;
    Ok(Value::Object(members))
}
