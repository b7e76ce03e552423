//! Facts in words, a line each.

ghost use Rattle.std.specs.Prelude.{◌≡◌, ◌++◌, OnOk, Some, codes, string_bytes};
ghost use Rattle.explanations.specs.InstructionLines.{line_of, source_of};
ghost use Rattle.explanations.specs.Names.{spot_name};
ghost use Rattle.explanations.specs.FactLines.{
  if_any,
  up_to_two,
  from_text,
  named_text,
  reads_line,
  at_line,
  finds_line,
  traps_line,
  leaves_line,
  sets_line,
  clears_line,
  swept_line,
  start_text,
  fetched_text,
  step_head,
  step_lines,
};

use crate::forms::write_form;
use crate::lines::InstructionLines;
use crate::names::{SpotName, SweptName, write_origin, write_spot};
use crate::pieces::{write_from_register, write_line_start, write_register_start};
use crate::reasons::{write_trap_why, write_why};
use cheri_model::{Event, NoMemory};
use facts::{Cleared, Extent, Fetched, NamedValue, StepFacts, Trapped, UpToTwo};
use itoa::Buffer;
use origins::{Place, Spot};
use report_lines::{CauseName, Hex64, write_event, write_value};

/// Appends the origin of a value, if it has one.
fn write_from(out: &mut String, origin: &Option<Place>) -> Result<(), NoMemory>
    ensures { OnOk result (string_bytes out.new
        ≡ string_bytes out.old ++ if_any from_text origin.now) }
{
    match origin {
        Some(Place::RegisterOf { hart, number }) => write_from_register(out, *hart, *number),
        Some(place) => {
            out.push_str(" from ")?;
            write_origin(out, *place)
        }
        None => Ok(()),
    }
}

/// Appends a place, and a space.
fn write_name(out: &mut String, name: Spot) -> Result<(), NoMemory>
    ensures { OnOk result (string_bytes out.new
        ≡ string_bytes out.old ++ (spot_name name ++ codes " ")) }
{
    match name {
        Spot::Register(number) => write_register_start(out, number),
        _ => {
            write_spot(out, name)?;
            out.push_str(" ")
        }
    }
}

/// Appends a place, its value, and the value's origin.
fn write_named(out: &mut String, named: &NamedValue) -> Result<(), NoMemory>
    ensures { OnOk result (string_bytes out.new ≡ string_bytes out.old ++ named_text named.now) }
{
    write_name(out, named.name)?;
    write_value(out, named.value)?;
    write_from(out, &named.origin)
}

/// Appends what was read.
fn write_read(out: &mut String, named: &NamedValue) -> Result<(), NoMemory>
    ensures { OnOk result (string_bytes out.new ≡ string_bytes out.old ++ reads_line named.now) }
{
    out.push_str("  reads ")?;
    write_named(out, named)?;
    out.push_str("\n")
}

/// Appends all that was read.
fn write_reads(out: &mut String, reads: &UpToTwo<NamedValue>) -> Result<(), NoMemory>
    ensures { OnOk result (string_bytes out.new
        ≡ string_bytes out.old ++ up_to_two reads_line reads.now) }
{
    match reads {
        UpToTwo::Zero => Ok(()),
        UpToTwo::One(named) => write_read(out, named),
        UpToTwo::Two(first, second) => {
            write_read(out, first)?;
            write_read(out, second)
        }
    }
}

/// Appends what was set.
fn write_set(out: &mut String, named: &NamedValue) -> Result<(), NoMemory>
    ensures { OnOk result (string_bytes out.new ≡ string_bytes out.old ++ sets_line named.now) }
{
    out.push_str("  sets ")?;
    write_named(out, named)?;
    out.push_str("\n")
}

/// Appends all that was set.
fn write_sets(out: &mut String, sets: &UpToTwo<NamedValue>) -> Result<(), NoMemory>
    ensures { OnOk result (string_bytes out.new
        ≡ string_bytes out.old ++ up_to_two sets_line sets.now) }
{
    match sets {
        UpToTwo::Zero => Ok(()),
        UpToTwo::One(named) => write_set(out, named),
        UpToTwo::Two(first, second) => {
            write_set(out, first)?;
            write_set(out, second)
        }
    }
}

/// Appends where an access of memory was, if there was one.
fn write_at(out: &mut String, at: &Option<Extent>) -> Result<(), NoMemory>
    ensures { OnOk result (string_bytes out.new ≡ string_bytes out.old ++ if_any at_line at.now) }
{
    match at {
        Some(extent) => {
            out.push_str("  at ")?;
            out.push_str(Buffer::new().format(Hex64(extent.address)))?;
            out.push_str(" ")?;
            out.push_str(Buffer::new().format(extent.bytes))?;
            out.push_str("\n")
        }
        None => Ok(()),
    }
}

/// Appends the granule that an access found, if it was done.
fn write_finds(out: &mut String, finds: &Option<NamedValue>) -> Result<(), NoMemory>
    ensures { OnOk result (string_bytes out.new
        ≡ string_bytes out.old ++ if_any finds_line finds.now) }
{
    match finds {
        Some(named) => {
            out.push_str("  finds ")?;
            write_named(out, named)?;
            out.push_str("\n")
        }
        None => Ok(()),
    }
}

/// Appends why a step trapped.
fn write_trap(out: &mut String, trapped: Trapped) -> Result<(), NoMemory>
    ensures { OnOk result (string_bytes out.new ≡ string_bytes out.old ++ traps_line trapped) }
{
    write!(out, "  traps {}: ", CauseName(trapped.trap.cause))?;
    write_trap_why(out, trapped.why)?;
    out.push_str("\n")?;
    Ok(())
}

/// Appends why a step trapped, if it did.
fn write_traps(out: &mut String, traps: Option<Trapped>) -> Result<(), NoMemory>
    ensures { OnOk result (string_bytes out.new
        ≡ string_bytes out.old ++ if_any traps_line traps) }
{
    match traps {
        Some(trapped) => write_trap(out, trapped),
        None => Ok(()),
    }
}

/// Appends the granule that a store left, if it was done.
fn write_leaves(out: &mut String, leaves: &Option<NamedValue>) -> Result<(), NoMemory>
    ensures { OnOk result (string_bytes out.new
        ≡ string_bytes out.old ++ if_any leaves_line leaves.now) }
{
    match leaves {
        Some(named) => {
            out.push_str("  leaves ")?;
            write_named(out, named)?;
            out.push_str("\n")
        }
        None => Ok(()),
    }
}

/// Appends what lost its tag, and why.
fn write_cleared(out: &mut String, cleared: Cleared) -> Result<(), NoMemory>
    ensures { OnOk result (string_bytes out.new ≡ string_bytes out.old ++ clears_line cleared) }
{
    write!(out, "  clears {}: ", SpotName(cleared.name))?;
    write_why(out, cleared.why)?;
    out.push_str("\n")?;
    Ok(())
}

/// Appends what lost its tag, if something did.
fn write_clears(out: &mut String, clears: Option<Cleared>) -> Result<(), NoMemory>
    ensures { OnOk result (string_bytes out.new
        ≡ string_bytes out.old ++ if_any clears_line clears) }
{
    match clears {
        Some(cleared) => write_cleared(out, cleared),
        None => Ok(()),
    }
}

/// Appends that a sweep cleared a place.
pub(crate) fn write_swept(out: &mut String, place: Place) -> Result<(), NoMemory>
    ensures { OnOk result (string_bytes out.new ≡ string_bytes out.old ++ swept_line place) }
{
    writeln!(out, "  clears {}: swept", SweptName(place))?;
    Ok(())
}

/// Appends what stands before an instruction: what it comes from, if a map says so, else its line.
fn write_start(
    out: &mut String,
    lines: &InstructionLines<'_>,
    number: usize,
) -> Result<(), NoMemory>
    ensures { OnOk result (string_bytes out.new ≡ string_bytes out.old
        ++ start_text (source_of lines.now number) (line_of lines.now number)) }
{
    match lines.source_of(number) {
        Some(source) => {
            write!(out, " | {source}: ")?;
            Ok(())
        }
        None => write_line_start(out, lines.line_of(number)),
    }
}

/// Appends an instruction after what stands before it, where its fetch passed.
fn write_fetched(
    out: &mut String,
    lines: &InstructionLines<'_>,
    fetched: Option<Fetched>,
) -> Result<(), NoMemory>
    ensures { OnOk result (string_bytes out.new
        ≡ string_bytes out.old ++ if_any (fetched_text lines.now) fetched) }
{
    if let Some(Fetched { number, instr }) = fetched {
        write_start(out, lines, number)?;
        write_form(out, instr.form())?;
    }
    Ok(())
}

/// Appends the report's line of a step, and the instruction where its fetch passed.
fn write_head(
    out: &mut String,
    lines: &InstructionLines<'_>,
    number: usize,
    facts: &StepFacts,
) -> Result<(), NoMemory>
    ensures { OnOk result (string_bytes out.new
        ≡ string_bytes out.old ++ step_head lines.now number facts.now) }
{
    write_event(out, number, &Event::Step(facts.entry))?;
    write_fetched(out, lines, facts.fetched)?;
    out.push_str("\n")?;
    Ok(())
}

/// Appends a step and its facts.
pub(crate) fn write_step(
    out: &mut String,
    lines: &InstructionLines<'_>,
    number: usize,
    facts: &StepFacts,
) -> Result<(), NoMemory>
    ensures { OnOk result (string_bytes out.new
        ≡ string_bytes out.old ++ step_lines lines.now number facts.now) }
{
    write_head(out, lines, number, facts)?;
    write_reads(out, &facts.reads)?;
    write_at(out, &facts.at)?;
    write_finds(out, &facts.finds)?;
    write_traps(out, facts.traps)?;
    write_leaves(out, &facts.leaves)?;
    write_sets(out, &facts.sets)?;
    write_clears(out, facts.clears)?;
    Ok(())
}
