//! The harts and the granules of a state as they are shown, as text and in JSON.
#![tactic(auto, using(crate::proofs::Rulesets::texts), unfolding(crate::proofs::Unfold::texts))]

ghost use Rattle.std.specs.Prelude.{◌≡◌, ◌++◌, OnOk, codes, string_bytes};
ghost use Rattle.report_lines.specs.Lines.{granule_line};
ghost use Rattle.report_lines.specs.Texts.{numbered};
ghost use Rattle.reports.specs.Json.{harts_data, memory_data};
ghost use Rattle.reports.specs.Report.{hart_lines, register_lines};
ghost use Rattle.serde_json.specs.Data.{string};
ghost use Rattle.serde_json.specs.Written.{compact_text};
ghost use Rattle.shown_states.specs.StateTexts.{
  shown_state,
  state_lines,
  state_members,
  states_line,
  states_word,
};

use crate::form::Format;
use crate::loaded::Loaded;
use cheri_model::{NoMemory, Reg};
use hart::Hart;
use report_lines::{
    write_granule_line, write_json_value, write_pcc_line, write_register_line, write_status_line,
};
use reports::{granules_json, harts_json};
use serde_json::Value;
use std::alloc::Global;
use tagged_mem::Ram;

/// Appends a text as a string of JSON.
pub fn write_json_string(alloc: Global, out: &mut String, text: String) -> Result<(), NoMemory>
    ensures { OnOk result (string_bytes out.new
        ≡ string_bytes out.old ++ compact_text (string (string_bytes text))) }
{
    write_json_value(alloc, out, Value::from(text))
}

/// Whether all states were kept, as a word.
fn states_word(complete: bool) -> &'static str
    ensures { result.now ≡ states_word complete }
{
    if complete { "complete" } else { "unfinished" }
}

/// Appends the line of how many states were kept, and whether these are all.
pub fn write_states_line(out: &mut String, complete: bool, states: u32) -> Result<(), NoMemory>
    ensures { OnOk result (string_bytes out.new
        ≡ string_bytes out.old ++ states_line complete states) }
{
    let word = states_word(complete);
    writeln!(out, "states {states} {word}")
}

/// Appends the lines of the registers c1 to c31.
fn write_registers(out: &mut String, hart: &Hart) -> Result<(), NoMemory>
    ensures { OnOk result (string_bytes out.new
        ≡ string_bytes out.old ++ register_lines hart.now 1 31) }
{
    for number in 1..32 {
        write_register_line(out, number, hart.register(Reg::new(number)))?;
    }
    Ok(())
}

/// Appends the lines of a hart.
fn write_hart(out: &mut String, number: usize, hart: &Hart) -> Result<(), NoMemory>
    ensures { OnOk result (string_bytes out.new
        ≡ string_bytes out.old ++ hart_lines number hart.now) }
{
    write_status_line(out, number, hart.status())?;
    write_pcc_line(out, hart.pcc())?;
    write_registers(out, hart)
}

/// Appends the lines of the harts.
fn write_harts(out: &mut String, harts: &[Hart]) -> Result<(), NoMemory>
    ensures { OnOk result (string_bytes out.new
        ≡ string_bytes out.old ++ numbered hart_lines 0 harts.now) }
{
    for (number, hart) in harts.iter().enumerate() {
        write_hart(out, number, hart)?;
    }
    Ok(())
}

/// Appends the lines of the granules.
fn write_granules(out: &mut String, ram: &Ram) -> Result<(), NoMemory>
    ensures { OnOk result (string_bytes out.new
        ≡ string_bytes out.old ++ numbered granule_line 0 ram.now) }
{
    for number in 0..ram.granule_count() {
        write_granule_line(out, number, ram.granule(number))?;
    }
    Ok(())
}

/// Appends the lines of the harts and the granules.
fn write_state_lines(out: &mut String, state: &Loaded) -> Result<(), NoMemory>
    ensures { OnOk result (string_bytes out.new
        ≡ string_bytes out.old ++ state_lines state.now) }
{
    write_harts(out, state.harts())?;
    write_granules(out, state.ram())
}

/// Appends the member of the harts.
fn write_harts_member(alloc: Global, out: &mut String, harts: &[Hart]) -> Result<(), NoMemory>
    ensures { OnOk result (string_bytes out.new ≡ string_bytes out.old
        ++ (codes "\"harts\":" ++ compact_text (harts_data harts.now))) }
{
    out.push_str("\"harts\":")?;
    write_json_value(alloc, out, harts_json(alloc, harts)?)
}

/// Appends the member of the granules, after another.
fn write_memory_member(alloc: Global, out: &mut String, ram: &Ram) -> Result<(), NoMemory>
    ensures { OnOk result (string_bytes out.new ≡ string_bytes out.old
        ++ (codes ",\"mem\":" ++ compact_text (memory_data ram.now))) }
{
    out.push_str(",\"mem\":")?;
    write_json_value(alloc, out, granules_json(alloc, ram)?)
}

/// Appends the members of the harts and of the granules.
fn write_state_members(alloc: Global, out: &mut String, state: &Loaded) -> Result<(), NoMemory>
    ensures { OnOk result (string_bytes out.new
        ≡ string_bytes out.old ++ state_members state.now) }
{
    write_harts_member(alloc, out, state.harts())?;
    write_memory_member(alloc, out, state.ram())
}

/// Appends a state in a form: its lines, or its members.
pub fn write_state(
    alloc: Global,
    format: Format,
    out: &mut String,
    state: &Loaded,
) -> Result<(), NoMemory>
    ensures { OnOk result (string_bytes out.new
        ≡ string_bytes out.old ++ shown_state format state.now) }
{
    match format {
        Format::Text => write_state_lines(out, state),
        Format::Json => write_state_members(alloc, out, state),
    }
}
