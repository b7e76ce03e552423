//! How orders are drawn.
#![tactic(auto, unfolding(crate::proofs::Unfold::drawn))]

ghost use Rattle.std.specs.Prelude.{◌≡◌, ◌++◌, OnOk, string_bytes};
ghost use Rattle.report_lines.specs.Texts.{numbered};
ghost use Rattle.sample_texts.specs.SampleTexts.{depth_text, drawn_line};
ghost use Rattle.sample_texts.specs.SampleJson.{depth_part, drawn_json, sweep_part};

use cheri_model::{NoMemory, Op};
use order_texts::OperationText;
use report_lines::write_comma;
use sample_draws::Drawing;
use schedules::SweepRange;
use shown_states::{Format, write_json_string};
use std::alloc::Global;

/// Appends a sweep of a list, by its place there.
fn write_sweep(
    alloc: Global,
    format: Format,
    out: &mut String,
    place: usize,
    range: SweepRange,
) -> Result<(), NoMemory>
    ensures { OnOk result (string_bytes out.new
        ≡ string_bytes out.old ++ sweep_part format place range) }
{
    let sweep = OperationText(Op::Sweep {
        lo: range.lo,
        hi: range.hi,
    });
    match format {
        Format::Text => write!(out, " sweep={sweep}"),
        Format::Json => {
            write_comma(out, place > 0)?;
            write_json_string(alloc, out, sweep.to_string(alloc)?)
        }
    }
}

/// Appends sweeps.
fn write_sweeps(
    alloc: Global,
    format: Format,
    out: &mut String,
    sweeps: &[SweepRange],
) -> Result<(), NoMemory>
    ensures { OnOk result (string_bytes out.new
        ≡ string_bytes out.old ++ numbered (sweep_part format) 0 sweeps.now) }
{
    for (place, range) in sweeps.iter().enumerate() {
        write_sweep(alloc, format, out, place, *range)?;
    }
    Ok(())
}

/// Appends the depth.
fn write_depth(out: &mut String, depth: Option<u8>) -> Result<(), NoMemory>
    ensures { OnOk result (string_bytes out.new ≡ string_bytes out.old ++ depth_text depth) }
{
    match depth {
        None => out.push_str("-"),
        Some(depth) => write!(out, "{depth}"),
    }
}

/// Appends the line of how orders are drawn.
pub(crate) fn write_drawn_line(
    alloc: Global,
    out: &mut String,
    drawing: &Drawing,
) -> Result<(), NoMemory>
    ensures { OnOk result (string_bytes out.new
        ≡ string_bytes out.old ++ drawn_line drawing.now) }
{
    write!(
        out,
        "drawn seed={} length={} depth=",
        drawing.seed(),
        drawing.length()
    )?;
    write_depth(out, drawing.depth())?;
    write_sweeps(alloc, Format::Text, out, drawing.sweeps())?;
    out.push_str("\n")?;
    Ok(())
}

/// Appends the member of the depth, where there is one.
fn write_depth_member(out: &mut String, depth: Option<u8>) -> Result<(), NoMemory>
    ensures { OnOk result (string_bytes out.new ≡ string_bytes out.old ++ depth_part depth) }
{
    match depth {
        None => Ok(()),
        Some(depth) => write!(out, "\"depth\":{depth},"),
    }
}

/// Appends the object of how orders are drawn.
pub(crate) fn write_drawn_json(
    alloc: Global,
    out: &mut String,
    drawing: &Drawing,
) -> Result<(), NoMemory>
    ensures { OnOk result (string_bytes out.new
        ≡ string_bytes out.old ++ drawn_json drawing.now) }
{
    out.push_str("{")?;
    write_depth_member(out, drawing.depth())?;
    let (length, seed) = (drawing.length(), drawing.seed());
    write!(out, "\"length\":{length},\"seed\":{seed},\"sweeps\":[")?;
    write_sweeps(alloc, Format::Json, out, drawing.sweeps())?;
    out.push_str("]}")?;
    Ok(())
}
