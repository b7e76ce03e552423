//! The text of an answer.

ghost use Rattle.std.specs.Prelude.{◌≡◌, ◌++◌, OnOk, string_bytes};
ghost use Rattle.authority_texts.specs.AuthorityTexts.{
  authority_text,
  hart_block,
  head_lines,
  rights_line,
  rights_lines,
};
ghost use Rattle.report_lines.specs.Texts.{numbered};
ghost use Rattle.states.specs.Kept.{count};

use crate::told::Told;
use cheri_model::{Image, NoMemory};
use order_texts::write_order;
use report_lines::{Hex, Hex64, write_image_line};
use shown_states::write_states_line;
use states::Kept;

/// Appends the line of rights.
#[tactic(auto, unfolding(crate::specs::AuthorityTexts::rights_line))]
fn write_rights(out: &mut String, told: &Told) -> Result<(), NoMemory>
    ensures { OnOk result (string_bytes out.new ≡ string_bytes out.old ++ rights_line told.now) }
{
    let base = Hex64(told.rights.base);
    let top = Hex::of_top(told.rights.top);
    let perms = Hex::of_perms(told.rights.perms);
    write!(out, "{base} {top} {perms} first=")?;
    write_order(out, told.order.as_slice())?;
    out.push_str("\n")
}

/// Appends the lines of a list.
pub fn write_list(out: &mut String, list: &[Told]) -> Result<(), NoMemory>
    ensures { OnOk result (string_bytes out.new ≡ string_bytes out.old ++ rights_lines list.now) }
{
    for told in list {
        write_rights(out, told)?;
    }
    Ok(())
}

/// Appends the block of a hart.
#[tactic(auto, unfolding(crate::specs::AuthorityTexts::hart_block))]
fn write_hart(out: &mut String, number: usize, list: &Vec<Told>) -> Result<(), NoMemory>
    ensures { OnOk result (string_bytes out.new
        ≡ string_bytes out.old ++ hart_block number list.now) }
{
    writeln!(out, "hart {number}")?;
    write_list(out, list.as_slice())
}

/// Appends the blocks of all harts.
pub fn write_harts(out: &mut String, harts: &[Vec<Told>]) -> Result<(), NoMemory>
    ensures { OnOk result (string_bytes out.new
        ≡ string_bytes out.old ++ numbered hart_block 0 harts.now) }
{
    for (number, list) in harts.iter().enumerate() {
        write_hart(out, number, list)?;
    }
    Ok(())
}

/// Appends the lines before the first block.
#[tactic(auto, unfolding(crate::specs::AuthorityTexts::head_lines))]
fn write_head(out: &mut String, complete: bool, image: &Image, states: u32) -> Result<(), NoMemory>
    ensures { OnOk result (string_bytes out.new
        ≡ string_bytes out.old ++ head_lines complete image.now states) }
{
    out.push_str("cheri-sim authority 1\n")?;
    write_image_line(out, image)?;
    write_states_line(out, complete, states)
}

/// Appends the whole text.
#[tactic(auto, unfolding(crate::specs::AuthorityTexts::authority_text))]
pub fn write_text(
    out: &mut String,
    kept: &Kept,
    harts: &[Vec<Told>],
    memory: &[Told],
) -> Result<(), NoMemory>
    ensures { OnOk result (string_bytes out.new ≡ string_bytes out.old
        ++ authority_text kept.now.complete kept.now.image (count kept.now)
        harts.now memory.now) }
{
    write_head(out, kept.is_complete(), kept.image(), kept.len())?;
    write_harts(out, harts)?;
    out.push_str("memory\n")?;
    write_list(out, memory)?;
    out.push_str("end\n")
}
