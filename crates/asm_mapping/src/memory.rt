//! Lines of symbols in memory, and of the capability table.
#![tactic(auto, unfolding(crate::proofs::Unfold::memory))]

ghost use Rattle.std.specs.Prelude.{◌≡◌, ◌++◌, ◌<◌, ◌^◌, OnOk, length, map};
ghost use Rattle.asm_symbols.specs.Definitions.{definition_parts};
ghost use Rattle.asm_places.specs.Capabilities.{objects_parts};
ghost use Rattle.asm_mapping.specs.Lines.{each_line, line_parts};
ghost use Rattle.asm_mapping.specs.Memory.{kept_address, symbol_lines, table_lines};

use crate::code::{name_of, shown_text};
use asm_labels::is_shown;
use asm_maps::MapLine;
use asm_places::{ChunkKind, Definition, Meaning, Objects};
use cheri_model::RAM_BASE;
use std::alloc::AllocError;

/// The address of a symbol in memory.
fn kept_address(objects: Objects<'_>, symbol: &Definition) -> Option<u64>
    ensures { result ≡ kept_address (objects_parts objects.entry) (definition_parts symbol.now) }
{
    let Meaning::Place(chunk, offset) = symbol.meaning else {
        return None;
    };
    if objects.places.kind_of(chunk).rank() == ChunkKind::Code.rank() {
        return None;
    }
    objects.places.address_in(chunk, u64::from(offset))
}

/// Appends the line of a symbol, if it is in memory and told.
fn push_symbol<'a>(
    lines: &mut Vec<MapLine<'a>>,
    objects: Objects<'_>,
    number: usize,
    symbol: &Definition<'a>,
) -> Result<(), AllocError>
    ensures { OnOk result (map line_parts lines.new.items ≡ map line_parts lines.old.items
        ++ symbol_lines (objects_parts objects.entry) number (definition_parts symbol.now)) }
{
    if !is_shown(symbol.name) {
        return Ok(());
    }
    let Some(addr) = kept_address(objects, symbol) else {
        return Ok(());
    };
    let length = match objects.lengths.get(number) {
        Some(length) => *length,
        None => 0,
    };
    lines.push(MapLine::Data {
        addr,
        length,
        name: shown_text(symbol.name),
    })?;
    Ok(())
}

/// Appends the lines of symbols in memory. Fails only when out of memory.
pub(crate) fn push_symbols<'a>(
    lines: &mut Vec<MapLine<'a>>,
    objects: Objects<'_>,
    symbols: &[Definition<'a>],
) -> Result<(), AllocError>
    ensures { OnOk result (map line_parts lines.new.items ≡ map line_parts lines.old.items
        ++ each_line (symbol_lines (objects_parts objects.entry)) 0
        (map definition_parts symbols.now)) }
{
    for (number, symbol) in symbols.iter().enumerate() {
        push_symbol(lines, objects, number, symbol)?;
    }
    Ok(())
}

/// Appends the lines of the capability table. Fails only when out of memory.
pub(crate) fn push_table<'a>(
    lines: &mut Vec<MapLine<'a>>,
    symbols: &[Definition<'a>],
    table: &[u32],
) -> Result<(), AllocError>
    requires { length table.now < 2 ^ 32 }
    ensures { OnOk result (map line_parts lines.new.items ≡ map line_parts lines.old.items
        ++ each_line (table_lines (map definition_parts symbols.now)) 0 table.now) }
{
    for (entry, symbol) in table.iter().enumerate() {
        lines.push(MapLine::Table {
            addr: RAM_BASE + 16 * entry as u64,
            name: name_of(symbols, *symbol),
        })?;
    }
    Ok(())
}
