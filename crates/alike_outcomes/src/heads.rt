//! What stands before the outcomes.

ghost use Rattle.std.specs.Prelude.{◌≡◌, ◌++◌, OnOk, string_bytes};
ghost use Rattle.alike_outcomes.specs.AlikeTexts.{alike_head_lines, alike_json_head};

use cheri_model::{Image, NoMemory};
use outcome_texts::complete_text;
use reduced_texts::write_reduced_line;
use reductions::LeftOut;
use report_lines::{image_json, write_image_line, write_json_value};
use shown_states::write_states_line;
use std::alloc::Global;

/// What every answer begins with: what was left out, whether all states were kept, and how many.
#[derive(Clone, Copy)]
pub(crate) struct Head<'a> {
    pub left_out: LeftOut,
    pub image: &'a Image,
    pub complete: bool,
    pub states: u32,
}

/// Appends the lines before the outcomes.
pub(crate) fn write_head_lines(
    alloc: Global,
    out: &mut String,
    head: Head<'_>,
) -> Result<(), NoMemory>
    ensures { OnOk result (string_bytes out.new ≡ string_bytes out.old
        ++ alike_head_lines head.entry.left_out head.entry.complete head.entry.image.now
        head.entry.states) }
{
    out.push_str("cheri-sim outcomes 2\n")?;
    write_image_line(out, head.image)?;
    write_reduced_line(alloc, out, Some(head.left_out))?;
    write_states_line(out, head.complete, head.states)?;
    out.push_str("endless -\noutcomes -\n")?;
    Ok(())
}

/// Appends the members up to the image.
pub(crate) fn write_json_head(
    alloc: Global,
    out: &mut String,
    head: Head<'_>,
) -> Result<(), NoMemory>
    ensures { OnOk result (string_bytes out.new ≡ string_bytes out.old
        ++ alike_json_head head.entry.complete head.entry.image.now) }
{
    out.push_str("{\"complete\":")?;
    out.push_str(complete_text(head.complete))?;
    out.push_str(",\"explore\":2,\"image\":")?;
    write_json_value(alloc, out, image_json(alloc, head.image)?)
}
