//! Lines that a report is made of. Each call appends one to a text.

#![tactic(auto, unfolding(crate::proofs::Unfold::lines))]

ghost use Rattle.std.specs.Prelude.{◌≡◌, ◌++◌, OnOk, string_bytes};
ghost use Rattle.report_lines.specs.Lines.{count_line, event_line, granule_line, image_line};
ghost use Rattle.report_lines.specs.Lines.{pcc_line, register_line, status_line};

use crate::event_text::{StatusText, write_event};
use crate::names::granule_address;
use crate::value_text::{ValueText, is_listed};
use cap_ops::Cap;
use cheri_model::{Event, Image, NoMemory, Status};

/// Appends the line of an image: how many harts, bytes of RAM and instructions it has.
pub fn write_image_line(out: &mut String, image: &Image) -> Result<(), NoMemory>
    ensures { OnOk result (string_bytes out.new ≡ string_bytes out.old ++ image_line image.now) }
{
    let (harts, code) = (image.harts().len(), image.program().len());
    writeln!(out, "image harts={harts} ram={} code={code}", image.ram())?;
    Ok(())
}

/// Appends the line that says how many events a trace has.
pub fn write_count_line(out: &mut String, count: usize) -> Result<(), NoMemory>
    ensures { OnOk result (string_bytes out.new ≡ string_bytes out.old ++ count_line count) }
{
    writeln!(out, "entries {count}")
}

/// Appends the line of an event, by its number from 0 on.
pub fn write_event_line(out: &mut String, number: usize, event: &Event) -> Result<(), NoMemory>
    ensures { OnOk result (string_bytes out.new
        ≡ string_bytes out.old ++ event_line number event.now) }
{
    write_event(out, number, event)?;
    out.push_str("\n")
}

/// Appends the line of a hart's number and status.
pub fn write_status_line(out: &mut String, number: usize, status: Status) -> Result<(), NoMemory>
    ensures { OnOk result (string_bytes out.new
        ≡ string_bytes out.old ++ status_line number status) }
{
    writeln!(out, "hart {number} {}", StatusText(status))
}

/// Appends the line of a PCC.
pub fn write_pcc_line(out: &mut String, pcc: Cap) -> Result<(), NoMemory>
    ensures { OnOk result (string_bytes out.new ≡ string_bytes out.old ++ pcc_line pcc) }
{
    writeln!(out, "pcc {}", ValueText(pcc))
}

/// Appends the line of a register, unless it is null.
pub fn write_register_line(out: &mut String, number: u8, held: Cap) -> Result<(), NoMemory>
    ensures { OnOk result (string_bytes out.new
        ≡ string_bytes out.old ++ register_line number held) }
{
    if is_listed(held) {
        writeln!(out, "c{number} {}", ValueText(held))?;
    }
    Ok(())
}

/// Appends the line of the granule with this number, unless it is an untagged 0.
pub fn write_granule_line(out: &mut String, number: usize, value: Cap) -> Result<(), NoMemory>
    ensures { OnOk result (string_bytes out.new
        ≡ string_bytes out.old ++ granule_line number value) }
{
    if is_listed(value) {
        writeln!(out, "mem {} {}", granule_address(number), ValueText(value))?;
    }
    Ok(())
}
