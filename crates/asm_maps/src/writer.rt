//! The text of a map.
#![tactic(auto, unfolding(crate::specs::Maps::map_text))]

ghost use Rattle.std.specs.Prelude.{◌≡◌, ◌++◌, OnOk, IfOk, string_bytes};
ghost use Rattle.asm_maps.specs.Maps.{lines_text, map_text};

use crate::line::MapLine;
use std::alloc::{AllocError, Global};

/// Appends lines.
fn write_lines(out: &mut String, lines: &[MapLine]) -> Result<(), AllocError>
    ensures { OnOk result (string_bytes out.new ≡ string_bytes out.old ++ lines_text lines.now) }
{
    for line in lines {
        writeln!(out, "{line}")?;
    }
    Ok(())
}

/// The text of a map of these lines. Fails only when out of memory.
pub fn write_map(alloc: Global, lines: &[MapLine]) -> Result<String, AllocError>
    ensures { IfOk result (λ text. string_bytes text ≡ map_text lines.now) }
{
    let mut out = String::new(alloc);
    out.push_str("cheri-asm map 1\n")?;
    write_lines(&mut out, lines)?;
    out.push_str("end\n")?;
    Ok(out)
}
