//! Lines of instructions.
#![tactic(auto, unfolding(crate::proofs::Unfold::code))]

ghost use Rattle.std.specs.Prelude.{◌≡◌, ◌++◌, ◌<◌, ◌^◌, OnOk, length, map, option_map};
ghost use Rattle.asm_symbols.specs.Definitions.{definition_parts};
ghost use Rattle.asm_places.specs.Places.{places_parts};
ghost use Rattle.asm_mapping.specs.Lines.{each_line, label_parts, line_parts, shown_text};
ghost use Rattle.asm_mapping.specs.Code.{code_line, code_lines, exit_lines, label_of, name_of};

use asm_instructions::Origin;
use asm_labels::{LabelBefore, labels_before};
use asm_maps::{Label, MapLine};
use asm_places::{Definition, Places};
use std::alloc::{AllocError, Global};
use std::str;

/// A name as a text. The names of assembly are ASCII, so that each is one.
pub(crate) fn shown_text(name: &[u8]) -> &str
    ensures { result.now ≡ shown_text name.now }
{
    match str::from_utf8(name) {
        Ok(text) => text,
        Err(_) => "",
    }
}

/// The name of the symbol of a number.
pub(crate) fn name_of<'a>(symbols: &[Definition<'a>], symbol: u32) -> &'a str
    ensures { result.now ≡ name_of (map definition_parts symbols.now) symbol }
{
    match symbols.get(symbol as usize) {
        Some(symbol) => shown_text(symbol.name),
        None => "",
    }
}

/// A label, and how far behind it an instruction is.
fn label_of<'a>(
    symbols: &[Definition<'a>],
    instruction: usize,
    before: Option<LabelBefore>,
) -> Option<Label<'a>>
    requires { instruction < 2 ^ 32 }
    ensures { option_map label_parts result
        ≡ label_of (map definition_parts symbols.now) instruction before }
{
    let before = before?;
    let behind = instruction.saturating_sub(before.instruction) as u64;
    Some(Label {
        name: name_of(symbols, before.symbol),
        offset: 4 * behind,
    })
}

/// The line of an instruction.
fn code_line<'a>(
    symbols: &[Definition<'a>],
    instruction: usize,
    before: Option<LabelBefore>,
    origin: Origin,
) -> MapLine<'a>
    requires { instruction < 2 ^ 32 }
    ensures { line_parts result
        ≡ code_line (map definition_parts symbols.now) instruction before origin }
{
    MapLine::Code {
        number: instruction,
        file: origin.file.wrapping_add(1),
        line: origin.line,
        label: label_of(symbols, instruction, before),
    }
}

/// Appends the lines of instructions, by where they come from. Fails only when out of memory.
pub(crate) fn push_code<'a>(
    alloc: Global,
    lines: &mut Vec<MapLine<'a>>,
    places: Places<'_>,
    symbols: &[Definition<'a>],
    origins: &[Origin],
) -> Result<(), AllocError>
    requires symbols { length symbols.now < 2 ^ 32 }
    requires code { length origins.now < 2 ^ 32 }
    ensures { OnOk result (map line_parts lines.new.items ≡ map line_parts lines.old.items
        ++ each_line (code_lines (places_parts places.entry) (map definition_parts symbols.now)) 0
        origins.now) }
{
    let labels = labels_before(alloc, places, symbols, origins.len())?;
    for (number, origin) in origins.iter().enumerate() {
        let before = labels[number];
        lines.push(code_line(symbols, number, before, *origin))?;
    }
    Ok(())
}

/// Appends the lines of the guard and the exit, behind so many instructions, if they are there.
/// Fails only when out of memory.
pub(crate) fn push_exit(
    lines: &mut Vec<MapLine>,
    count: usize,
    exit: bool,
) -> Result<(), AllocError>
    requires { count < 2 ^ 32 }
    ensures { OnOk result (map line_parts lines.new.items
        ≡ map line_parts lines.old.items ++ exit_lines count exit) }
{
    if exit {
        lines.push(MapLine::Guard(count))?;
        lines.push(MapLine::Exit(count + 1))?;
    }
    Ok(())
}
