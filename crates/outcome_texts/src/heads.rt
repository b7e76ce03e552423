//! What stands before the outcomes.

ghost use Rattle.std.specs.Prelude.{◌≡◌, ◌++◌, OnOk, codes, decimal, if◌then◌else◌, string_bytes};
ghost use Rattle.outcome_texts.specs.OutcomeParts.{complete_text, json_head};
ghost use Rattle.outcome_texts.specs.ReducedTexts.{said_head_lines};
ghost use Rattle.report_lines.specs.Texts.{line};

use crate::endless::{endless_json, write_endless_line};
use cheri_model::{Image, NoMemory};
use found_texts::{reduced_line, reduced_version};
use report_lines::{image_json, write_image_line, write_json_value};
use shown_states::write_states_line;
use state_loops::Endless;
use std::alloc::Global;

/// What every answer begins with: whether registers were forgotten, whether all states were kept,
/// how many, and whether runs can go on for ever.
#[derive(Clone, Copy)]
pub struct Head<'a> {
    pub reduced: bool,
    pub image: &'a Image,
    pub complete: bool,
    pub states: u32,
    pub endless: &'a Endless,
}

/// The first line.
fn first_line(reduced: bool) -> &'static str
    ensures { result.now
        ≡ line (if reduced then codes "cheri-sim outcomes 2" else codes "cheri-sim outcomes 1") }
{
    if reduced {
        "cheri-sim outcomes 2\n"
    } else {
        "cheri-sim outcomes 1\n"
    }
}

/// Appends the line of how many outcomes there are: they aren't counted where registers were
/// forgotten, since then there would be fewer.
fn write_count_line(out: &mut String, reduced: bool, outcomes: usize) -> Result<(), NoMemory>
    ensures { OnOk result (string_bytes out.new ≡ string_bytes out.old
        ++ line (if reduced then codes "outcomes -" else (codes "outcomes " ++ decimal outcomes))) }
{
    if reduced {
        return out.push_str("outcomes -\n");
    }
    writeln!(out, "outcomes {outcomes}")
}

/// Appends the lines up to that of how many outcomes there are.
pub fn write_head_lines(out: &mut String, head: Head<'_>, outcomes: usize) -> Result<(), NoMemory>
    ensures { OnOk result (string_bytes out.new ≡ string_bytes out.old
        ++ said_head_lines head.entry.reduced head.entry.complete head.entry.image.now
        head.entry.states head.entry.endless.now outcomes) }
{
    out.push_str(first_line(head.reduced))?;
    write_image_line(out, head.image)?;
    out.push_str(reduced_line(head.reduced))?;
    write_states_line(out, head.complete, head.states)?;
    write_endless_line(out, head.endless)?;
    write_count_line(out, head.reduced, outcomes)
}

/// Whether all states were kept, in JSON.
pub fn complete_text(complete: bool) -> &'static str
    ensures { result.now ≡ complete_text complete }
{
    if complete { "true" } else { "false" }
}

/// Appends the members up to the image.
pub fn write_json_head(alloc: Global, out: &mut String, head: Head<'_>) -> Result<(), NoMemory>
    ensures { OnOk result (string_bytes out.new ≡ string_bytes out.old
        ++ json_head head.entry.reduced head.entry.complete head.entry.image.now
        head.entry.endless.now) }
{
    out.push_str("{\"complete\":")?;
    out.push_str(complete_text(head.complete))?;
    out.push_str(",\"endless\":")?;
    write_json_value(alloc, out, endless_json(alloc, head.endless)?)?;
    let version = reduced_version(head.reduced);
    write!(out, ",\"explore\":{version},\"image\":")?;
    write_json_value(alloc, out, image_json(alloc, head.image)?)
}
