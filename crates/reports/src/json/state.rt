//! The harts and the granules of a state in JSON, in pieces. They need no trace.

#![tactic(auto, using(crate::proofs::JsonLemmas::floatless), unfolding(crate::proofs::Unfold::json_parts))]

ghost use Rattle.std.specs.Prelude.{◌≡◌, ◌+◌, ◌||◌, ◌++◌, IfOk, OnOk, string_bytes};
ghost use Rattle.cheri_model.specs.runs.ImageRules.{is_listed};
ghost use Rattle.cheri_model.specs.steps.Memory.{IsMemory};
ghost use Rattle.report_lines.specs.JsonText.{item_text};
ghost use Rattle.reports.specs.Json.{hart_data, harts_data, memory_data};
ghost use Rattle.reports.specs.JsonText.{granule_member};
ghost use Rattle.serde_json.specs.Written.{compact_text};
ghost use Rattle.sinks.specs.Sinks.{TakesAllBut, TakesPrefix};
ghost use Rattle.sinks.specs.WriteFaults.{failures_of};

use super::hart_json;
use cap_ops::Cap;
use cheri_model::NoMemory;
use hart::Hart;
use itoa::Buffer;
use report_lines::{granule_address, is_listed, value_json, write_comma, write_json_value};
use sinks::{Sink, WriteFault, make_room};
use std::alloc::Global;
use tagged_mem::Ram;

/// Appends a hart of a list, by its number.
fn write_hart(alloc: Global, out: &mut String, number: usize, hart: &Hart) -> Result<(), NoMemory>
    ensures { OnOk result (string_bytes out.new
        ≡ string_bytes out.old ++ item_text hart_data number hart.now) }
{
    write_comma(out, number > 0)?;
    write_json_value(alloc, out, hart_json(alloc, hart)?)
}

/// Writes the harts as a list, after what is kept in `out`. Whenever another part might not fit,
/// what is kept is put to the sink; the rest stays in `out`.
pub fn put_harts_json<S: Sink>(
    alloc: Global,
    out: &mut String,
    sink: &mut S,
    harts: &[Hart],
) -> Result<(), WriteFault>
    ensures whole { OnOk result (TakesAllBut (S.written sink.old) (S.written sink.new)
        (string_bytes out.new)
        (string_bytes out.old ++ compact_text (harts_data harts.now))) }
    ensures prefix { TakesPrefix (S.written sink.old) (S.written sink.new)
        (string_bytes out.old ++ compact_text (harts_data harts.now)) }
    ensures failures { S.failures sink.new ≡ S.failures sink.old + failures_of result }
    ensures identity { S.identity sink.new ≡ S.identity sink.old }
{
    out.push_str("[")?;
    for (number, hart) in harts.iter().enumerate() {
        write_hart(alloc, out, number, hart)?;
        make_room(out, sink)?;
    }
    out.push_str("]")?;
    Ok(())
}

/// Appends a granule under its address, unless it is an untagged 0. Answers whether one stands
/// there now.
fn write_granule(
    alloc: Global,
    out: &mut String,
    later: bool,
    number: usize,
    value: Cap,
) -> Result<bool, NoMemory>
    ensures written { IfOk result (λ now. string_bytes out.new
        ≡ string_bytes out.old ++ granule_member later number value) }
    ensures later { IfOk result (λ now. now ≡ (later || is_listed value)) }
{
    if !is_listed(value) {
        return Ok(later);
    }
    write_comma(out, later)?;
    let mut digits = Buffer::new();
    out.push_str("\"")?;
    out.push_str(digits.format(granule_address(number)))?;
    out.push_str("\":")?;
    write_json_value(alloc, out, value_json(alloc, value)?)?;
    Ok(true)
}

/// Writes the granules as an object by their addresses, as `put_harts_json` the harts.
pub fn put_granules_json<S: Sink>(
    alloc: Global,
    out: &mut String,
    sink: &mut S,
    ram: &Ram,
) -> Result<(), WriteFault>
    ensures whole { OnOk result (TakesAllBut (S.written sink.old) (S.written sink.new)
        (string_bytes out.new)
        (string_bytes out.old ++ compact_text (memory_data ram.now))) }
    ensures prefix { TakesPrefix (S.written sink.old) (S.written sink.new)
        (string_bytes out.old ++ compact_text (memory_data ram.now)) }
    ensures failures { S.failures sink.new ≡ S.failures sink.old + failures_of result }
    ensures identity { S.identity sink.new ≡ S.identity sink.old }
{
    out.push_str("{")?;
    let mut later = false;
    for number in 0..ram.granule_count() {
        later = write_granule(alloc, out, later, number, ram.granule(number))?;
        make_room(out, sink)?;
    }
    out.push_str("}")?;
    Ok(())
}
