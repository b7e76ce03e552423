//! The whole map.
#![tactic(auto, unfolding(crate::proofs::Unfold::mapping))]

ghost use Rattle.std.specs.Prelude.{◌≡◌, ◌++◌, ◌<◌, ◌^◌, IfOk, OnOk, length, map, nat_lt};
ghost use Rattle.asm_mapping.specs.Lines.{each_line, line_parts, text_now};
ghost use Rattle.asm_starts.specs.Starts.{note_parts};
ghost use Rattle.asm_mapping.specs.Mapping.{
  file_lines,
  hart_line,
  hart_lines,
  lines_of,
  mapped_parts,
};

use crate::code::{push_code, push_exit, shown_text};
use crate::memory::{push_symbols, push_table};
use asm_instructions::Origin;
use asm_maps::{MapLine, Stack};
use asm_places::Objects;
use asm_starts::HartNote;
use std::alloc::{AllocError, Global};

/// What a map tells of a program: its symbols, the capability table, where each instruction comes
/// from, whether the guard and the exit follow, and its harts.
#[derive(Clone, Copy)]
pub struct Mapped<'a> {
    pub objects: Objects<'a>,
    pub table: &'a [u32],
    pub origins: &'a [Origin],
    pub exit: bool,
    pub harts: &'a [HartNote<'a>],
}

/// Appends the lines of files. Fails only when out of memory.
fn push_files<'a>(lines: &mut Vec<MapLine<'a>>, names: &[&'a str]) -> Result<(), AllocError>
    requires { length names.now < 2 ^ 32 }
    ensures { OnOk result (map line_parts lines.new.items
        ≡ map line_parts lines.old.items ++ each_line file_lines 1 (map text_now names.now)) }
{
    for (place, name) in names.iter().enumerate() {
        lines.push(MapLine::File {
            number: place + 1,
            name: *name,
        })?;
    }
    Ok(())
}

/// The line of a hart.
fn hart_line<'a>(number: usize, note: HartNote<'a>) -> MapLine<'a>
    ensures { line_parts result ≡ hart_line number (note_parts note.entry) }
{
    let entry = match note.entry {
        Some(name) => Some(shown_text(name)),
        None => None,
    };
    let stack = match note.stack {
        Some(stack) => Some(Stack {
            base: stack.base,
            size: stack.size,
        }),
        None => None,
    };
    MapLine::Hart {
        number,
        entry,
        stack,
    }
}

/// Appends the lines of harts. Fails only when out of memory.
fn push_harts<'a>(lines: &mut Vec<MapLine<'a>>, harts: &[HartNote<'a>]) -> Result<(), AllocError>
    ensures { OnOk result (map line_parts lines.new.items
        ≡ map line_parts lines.old.items ++ each_line hart_lines 0 (map note_parts harts.now)) }
{
    for (number, note) in harts.iter().enumerate() {
        lines.push(hart_line(number, *note))?;
    }
    Ok(())
}

/// Whether there are so few that each has a number of 32 bits.
fn is_few(count: usize) -> bool
    ensures { result ≡ nat_lt count (2 ^ 32) }
{
    count <= 0xFFFF_FFFF
}

/// The lines of the map of a program, of files of these names. Fails only when out of memory.
fn push_all<'a>(
    alloc: Global,
    mapped: Mapped<'a>,
    names: &[&'a str],
) -> Result<Vec<MapLine<'a>>, AllocError>
    requires names { length names.now < 2 ^ 32 }
    requires symbols { length mapped.objects.symbols.now < 2 ^ 32 }
    requires code { length mapped.origins.now < 2 ^ 32 }
    requires table { length mapped.table.now < 2 ^ 32 }
    ensures { IfOk result (λ lines. map line_parts lines.items
        ≡ lines_of (mapped_parts mapped.entry) (map text_now names.now)) }
{
    let mut lines = Vec::new(alloc);
    push_files(&mut lines, names)?;
    let (objects, symbols) = (mapped.objects, mapped.objects.symbols);
    push_code(alloc, &mut lines, objects.places, symbols, mapped.origins)?;
    push_exit(&mut lines, mapped.origins.len(), mapped.exit)?;
    push_symbols(&mut lines, objects, symbols)?;
    push_table(&mut lines, symbols, mapped.table)?;
    push_harts(&mut lines, mapped.harts)?;
    Ok(lines)
}

/// The lines of the map of a program, of files of these names. Fails only when out of memory, and
/// where there are 2^32 files, symbols, instructions or entries.
pub fn map_lines<'a>(
    alloc: Global,
    mapped: Mapped<'a>,
    names: &[&'a str],
) -> Result<Vec<MapLine<'a>>, AllocError>
    ensures { IfOk result (λ lines. map line_parts lines.items
        ≡ lines_of (mapped_parts mapped.entry) (map text_now names.now)) }
{
    if !is_few(names.len()) || !is_few(mapped.objects.symbols.len()) {
        return Err(AllocError);
    }
    if !is_few(mapped.origins.len()) || !is_few(mapped.table.len()) {
        return Err(AllocError);
    }
    push_all(alloc, mapped, names)
}
