//! JSON as text, part by part, so that no long value is ever whole.

#![tactic(auto, using(crate::proofs::JsonLemmas::floatless), unfolding(crate::proofs::Unfold::events))]

ghost use Rattle.std.specs.Prelude.{◌≡◌, ◌++◌, OnOk, false, string_bytes};
ghost use Rattle.cheri_model.specs.declared.trace.Outcome.TheVariants as outcome;
ghost use Rattle.serde_json.specs.Data.{object, string};
ghost use Rattle.serde_json.specs.View.{view as data_of};
ghost use Rattle.serde_json.specs.Written.{comma_if, compact_text, has_float};
ghost use Rattle.report_lines.specs.EventData.{event_data, step_members};
ghost use Rattle.report_lines.specs.ValueData.{count};
ghost use Rattle.report_lines.specs.ValueText.{hex_text};

use crate::event_data::event_json;
use cheri_model::{Entry, Event, NoMemory, Outcome};
use itoa::Buffer;
use serde_json::Value;
use std::alloc::Global;
use text_numbers::Hex64;

/// Appends the compact text of a value that has no float.
pub fn write_json_value(alloc: Global, out: &mut String, value: Value) -> Result<(), NoMemory>
    requires { has_float (data_of value) ≡ false }
    ensures { OnOk result (string_bytes out.new
        ≡ string_bytes out.old ++ compact_text (data_of value)) }
{
    let text = value.to_string(alloc)?;
    out.push_str(text.as_str())
}

/// Appends the comma that stands before all items but the first.
pub fn write_comma(out: &mut String, later: bool) -> Result<(), NoMemory>
    ensures { OnOk result (string_bytes out.new ≡ string_bytes out.old ++ comma_if later) }
{
    if later {
        out.push(',')?;
    }
    Ok(())
}

/// Appends a step that was done, as most are: piece by piece, since a report has up to 100,000.
fn write_done(out: &mut String, hart: u8, pc: u64) -> Result<(), NoMemory>
    ensures { OnOk result (string_bytes out.new ≡ string_bytes out.old ++ compact_text
        (object (step_members (count hart) (string (hex_text 16 pc)) outcome.Done))) }
{
    let mut number = Buffer::new();
    out.push_str("{\"hart\":")?;
    out.push_str(number.format(hart))?;
    out.push_str(",\"outcome\":\"done\",\"pc\":\"")?;
    out.push_str(number.format(Hex64(pc)))?;
    out.push_str("\"}")?;
    Ok(())
}

/// Appends an event of a trace.
pub fn write_event_json(alloc: Global, out: &mut String, event: &Event) -> Result<(), NoMemory>
    ensures { OnOk result (string_bytes out.new
        ≡ string_bytes out.old ++ compact_text (event_data event.now)) }
{
    match event {
        Event::Step(
            Entry {
                hart,
                pc,
                outcome: Outcome::Done,
            },
        ) => write_done(out, *hart, *pc),
        _ => write_json_value(alloc, out, event_json(alloc, event)?),
    }
}
