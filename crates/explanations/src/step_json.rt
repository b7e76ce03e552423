//! A step that was done as JSON text, piece by piece.
#![tactic(auto, using(crate::proofs::FactLemmas::floatless))]

ghost use Rattle.std.specs.Prelude.{
  ◌≡◌,
  ◌++◌,
  OnOk,
  None,
  Some,
  codes,
  decimal,
  false,
  is_some,
  string_bytes,
};
ghost use Rattle.std.specs.Option.{option_map};
ghost use Rattle.serde_json.specs.Written.{compact_text};
ghost use Rattle.cheri_model.specs.declared.trace.Outcome.TheVariants as outcome;
ghost use Rattle.report_lines.specs.ValueText.{hex_text};
ghost use Rattle.explanations.specs.FactData.{
  place_data,
  extent_data,
  cleared_data,
  instruction_data,
  line_data,
  step_data,
};
ghost use Rattle.explanations.specs.JsonText.{if_there, names_data};

use crate::fact_data::step_json;
use crate::forms::write_form;
use crate::lines::InstructionLines;
use crate::named_json::{write_place, write_places};
use crate::names::write_spot;
use crate::reasons::write_why;
use cheri_model::{NoMemory, Outcome};
use facts::{Cleared, Extent, Fetched, NamedValue, StepFacts, UpToTwo};
use itoa::Buffer;
use report_lines::{Hex64, write_json_value};
use std::alloc::Global;

/// Appends where an access of memory was.
fn write_extent(out: &mut String, extent: &Extent) -> Result<(), NoMemory>
    ensures { OnOk result (string_bytes out.new ≡ string_bytes out.old
        ++ if_there (codes "\"at\":") (codes ",") (Some (extent_data extent.now))) }
{
    out.push_str("\"at\":{\"address\":\"")?;
    out.push_str(Buffer::new().format(Hex64(extent.address)))?;
    out.push_str("\",\"bytes\":")?;
    out.push_str(Buffer::new().format(extent.bytes))?;
    out.push_str("},")?;
    Ok(())
}

/// The same, if there was one.
fn write_at(out: &mut String, at: &Option<Extent>) -> Result<(), NoMemory>
    ensures { OnOk result (string_bytes out.new ≡ string_bytes out.old
        ++ if_there (codes "\"at\":") (codes ",") (option_map extent_data at.now)) }
{
    match at {
        Some(extent) => write_extent(out, extent),
        None => Ok(()),
    }
}

/// Appends what lost its tag, and why.
fn write_lost(out: &mut String, cleared: &Cleared) -> Result<(), NoMemory>
    ensures { OnOk result (string_bytes out.new ≡ string_bytes out.old
        ++ if_there (codes "\"clears\":") (codes ",") (Some (cleared_data cleared.now))) }
{
    out.push_str("\"clears\":{\"")?;
    write_spot(out, cleared.name)?;
    out.push_str("\":\"")?;
    write_why(out, cleared.why)?;
    out.push_str("\"},")?;
    Ok(())
}

/// The same, if something did.
fn write_cleared(out: &mut String, clears: &Option<Cleared>) -> Result<(), NoMemory>
    ensures { OnOk result (string_bytes out.new ≡ string_bytes out.old
        ++ if_there (codes "\"clears\":") (codes ",") (option_map cleared_data clears.now)) }
{
    match clears {
        Some(cleared) => write_lost(out, cleared),
        None => Ok(()),
    }
}

/// Appends a granule, if there is one, between these texts.
fn write_granule(
    out: &mut String,
    before: &str,
    after: &str,
    named: &Option<NamedValue>,
) -> Result<(), NoMemory>
    ensures { OnOk result (string_bytes out.new ≡ string_bytes out.old
        ++ if_there before.now after.now (option_map place_data named.now)) }
{
    match named {
        Some(granule) => {
            out.push_str(before)?;
            write_place(out, granule)?;
            out.push_str(after)
        }
        None => Ok(()),
    }
}

/// Appends the text of an instruction.
fn write_fetched(out: &mut String, fetched: &Fetched) -> Result<(), NoMemory>
    ensures { OnOk result (string_bytes out.new ≡ string_bytes out.old
        ++ if_there (codes ",\"instruction\":") (codes "") (Some (instruction_data fetched.now))) }
{
    out.push_str(",\"instruction\":\"")?;
    write_form(out, fetched.instr.form())?;
    out.push_str("\"")?;
    Ok(())
}

/// The same, where its fetch passed.
fn write_instruction(out: &mut String, fetched: &Option<Fetched>) -> Result<(), NoMemory>
    ensures { OnOk result (string_bytes out.new ≡ string_bytes out.old
        ++ if_there (codes ",\"instruction\":") (codes "")
        (option_map instruction_data fetched.now)) }
{
    match fetched {
        Some(fetched) => write_fetched(out, fetched),
        None => Ok(()),
    }
}

/// Appends the number of an instruction's line, where its fetch passed.
fn write_line(
    out: &mut String,
    lines: &InstructionLines<'_>,
    fetched: &Option<Fetched>,
) -> Result<(), NoMemory>
    ensures { OnOk result (string_bytes out.new ≡ string_bytes out.old
        ++ if_there (codes ",\"line\":") (codes "")
        (option_map (line_data lines.now) fetched.now)) }
{
    match fetched {
        Some(fetched) => {
            out.push_str(",\"line\":")?;
            out.push_str(Buffer::new().format(lines.line_of(fetched.number)))
        }
        None => Ok(()),
    }
}

/// Appends what is read or set, if something is, after this text.
fn write_names(
    alloc: Global,
    out: &mut String,
    before: &str,
    named: &UpToTwo<NamedValue>,
) -> Result<(), NoMemory>
    ensures { OnOk result (string_bytes out.new ≡ string_bytes out.old
        ++ if_there before.now (codes "") (names_data named.now)) }
{
    match named {
        UpToTwo::Zero => Ok(()),
        UpToTwo::One(only) => {
            out.push_str(before)?;
            write_place(out, only)
        }
        UpToTwo::Two(first, second) => {
            out.push_str(before)?;
            write_places(alloc, out, first, second)
        }
    }
}

/// Appends the members before the hart's.
fn write_before_hart(out: &mut String, facts: &StepFacts) -> Result<(), NoMemory>
    ensures { OnOk result (string_bytes out.new ≡ string_bytes out.old
        ++ (if_there (codes "\"at\":") (codes ",") (option_map extent_data facts.now.at)
        ++ (if_there (codes "\"clears\":") (codes ",") (option_map cleared_data facts.now.clears)
        ++ if_there (codes "\"finds\":") (codes ",") (option_map place_data facts.now.finds)))) }
{
    write_at(out, &facts.at)?;
    write_cleared(out, &facts.clears)?;
    write_granule(out, "\"finds\":", ",", &facts.finds)
}

/// Appends the members from the hart's to that of the instruction's line.
fn write_from_hart(
    out: &mut String,
    lines: &InstructionLines<'_>,
    facts: &StepFacts,
) -> Result<(), NoMemory>
    ensures { OnOk result (string_bytes out.new ≡ string_bytes out.old
        ++ (codes "\"hart\":" ++ (decimal facts.now.entry.hart
        ++ (if_there (codes ",\"instruction\":") (codes "")
        (option_map instruction_data facts.now.fetched)
        ++ (if_there (codes ",\"leaves\":") (codes "") (option_map place_data facts.now.leaves)
        ++ if_there (codes ",\"line\":") (codes "")
        (option_map (line_data lines.now) facts.now.fetched)))))) }
{
    out.push_str("\"hart\":")?;
    out.push_str(Buffer::new().format(facts.entry.hart))?;
    write_instruction(out, &facts.fetched)?;
    write_granule(out, ",\"leaves\":", "", &facts.leaves)?;
    write_line(out, lines, &facts.fetched)
}

/// Appends the members of an event's number, of how the step ended and of PCC's address.
fn write_number(out: &mut String, number: usize, pc: u64) -> Result<(), NoMemory>
    ensures { OnOk result (string_bytes out.new ≡ string_bytes out.old
        ++ (codes ",\"number\":" ++ (decimal number
        ++ (codes ",\"outcome\":\"done\",\"pc\":\"" ++ (hex_text 16 pc ++ codes "\""))))) }
{
    out.push_str(",\"number\":")?;
    out.push_str(Buffer::new().format(number))?;
    out.push_str(",\"outcome\":\"done\",\"pc\":\"")?;
    out.push_str(Buffer::new().format(Hex64(pc)))?;
    out.push_str("\"")?;
    Ok(())
}

/// Appends the members from the number on.
fn write_from_number(
    alloc: Global,
    out: &mut String,
    number: usize,
    facts: &StepFacts,
) -> Result<(), NoMemory>
    ensures { OnOk result (string_bytes out.new ≡ string_bytes out.old
        ++ (codes ",\"number\":" ++ (decimal number
        ++ (codes ",\"outcome\":\"done\",\"pc\":\""
        ++ (hex_text 16 facts.now.entry.pc ++ (codes "\""
        ++ (if_there (codes ",\"reads\":") (codes "") (names_data facts.now.reads)
        ++ if_there (codes ",\"sets\":") (codes "") (names_data facts.now.sets)))))))) }
{
    write_number(out, number, facts.entry.pc)?;
    write_names(alloc, out, ",\"reads\":", &facts.reads)?;
    write_names(alloc, out, ",\"sets\":", &facts.sets)
}

/// Appends a step that was done, as most are, where no map is there.
fn write_done(
    alloc: Global,
    out: &mut String,
    lines: &InstructionLines<'_>,
    number: usize,
    facts: &StepFacts,
) -> Result<(), NoMemory>
    requires done { facts.now.entry.outcome ≡ outcome.Done }
    requires untrapped { facts.now.traps ≡ None }
    requires unmapped { is_some lines.now.sources ≡ false }
    ensures { OnOk result (string_bytes out.new
        ≡ string_bytes out.old ++ compact_text (step_data lines.now number facts.now)) }
{
    out.push_str("{")?;
    write_before_hart(out, facts)?;
    write_from_hart(out, lines, facts)?;
    write_from_number(alloc, out, number, facts)?;
    out.push_str("}")?;
    Ok(())
}

/// Appends a step of any kind.
fn write_any(
    alloc: Global,
    out: &mut String,
    lines: &InstructionLines<'_>,
    number: usize,
    facts: &StepFacts,
) -> Result<(), NoMemory>
    ensures { OnOk result (string_bytes out.new
        ≡ string_bytes out.old ++ compact_text (step_data lines.now number facts.now)) }
{
    write_json_value(alloc, out, step_json(alloc, lines, number, facts)?)
}

/// Appends a step: the members of the report's entry, its number, and its facts.
pub(crate) fn write_step_json(
    alloc: Global,
    out: &mut String,
    lines: &InstructionLines<'_>,
    number: usize,
    facts: &StepFacts,
) -> Result<(), NoMemory>
    ensures { OnOk result (string_bytes out.new
        ≡ string_bytes out.old ++ compact_text (step_data lines.now number facts.now)) }
{
    if lines.has_sources() {
        return write_any(alloc, out, lines, number, facts);
    }
    match facts.entry.outcome {
        Outcome::Done => match &facts.traps {
            None => write_done(alloc, out, lines, number, facts),
            Some(_) => write_any(alloc, out, lines, number, facts),
        },
        _ => write_any(alloc, out, lines, number, facts),
    }
}
