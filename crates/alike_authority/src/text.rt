//! The text of an answer.

ghost use Rattle.std.specs.Prelude.{◌≡◌, ◌++◌, OnOk, string_bytes};
ghost use Rattle.alike_authority.specs.AlikeAuthorityTexts.{alike_head_lines, alike_text, parts_of};

use crate::heads::Head;
use authority_texts::{Told, write_harts, write_list};
use cheri_model::NoMemory;
use reduced_texts::write_reduced_line;
use report_lines::write_image_line;
use shown_states::write_states_line;
use std::alloc::Global;

/// Appends the lines before the first hart's.
fn write_head(alloc: Global, out: &mut String, head: Head<'_>) -> Result<(), NoMemory>
    ensures { OnOk result (string_bytes out.new
        ≡ string_bytes out.old ++ alike_head_lines (parts_of head.entry.left_out
        head.entry.complete head.entry.image.now head.entry.states)) }
{
    out.push_str("cheri-sim authority 2\n")?;
    write_image_line(out, head.image)?;
    write_reduced_line(alloc, out, Some(head.left_out))?;
    write_states_line(out, head.complete, head.states)?;
    Ok(())
}

/// Appends the whole text.
pub(crate) fn write_text(
    alloc: Global,
    out: &mut String,
    head: Head<'_>,
    harts: &[Vec<Told>],
    memory: &[Told],
) -> Result<(), NoMemory>
    ensures { OnOk result (string_bytes out.new
        ≡ string_bytes out.old ++ alike_text (parts_of head.entry.left_out head.entry.complete
        head.entry.image.now head.entry.states) harts.now memory.now) }
{
    write_head(alloc, out, head)?;
    write_harts(out, harts)?;
    out.push_str("memory\n")?;
    write_list(out, memory)?;
    out.push_str("end\n")?;
    Ok(())
}
