//! The symbols of a map.
#![tactic(auto, using(crate::proofs::SymbolLemmas::symbols))]

ghost use Rattle.std.specs.Prelude.{◌≡◌, ◌<◌, IfSome, length, map, option_map, position};
ghost use Rattle.std.specs.List.{list_any};
ghost use Rattle.asm_map_reader.specs.Lines.{label_parts};
ghost use Rattle.asm_map_reader.specs.Sources.{source_parts};
ghost use Rattle.listing_maps.specs.Symbols.{is_at, is_label_at, symbol_at, symbol_place};

use asm_map_reader::Source;
use asm_maps::Label;

/// Whether an instruction with this label before it is at the beginning of a symbol.
fn is_label_at(name: &[u8], label: Option<Label<'_>>) -> bool
    ensures { result ≡ is_label_at name.now (option_map label_parts label.entry) }
{
    match label {
        Some(label) => label.offset == 0 && label.name.as_bytes() == name,
        None => false,
    }
}

/// Whether the instruction that comes from there is.
fn is_at(name: &[u8], source: Source<'_>) -> bool
    ensures { result ≡ is_at name.now (source_parts source.entry) }
{
    match source {
        Source::Statement { label, .. } => is_label_at(name, label),
        Source::Guard | Source::Exit => false,
    }
}

/// The number of the first instruction that is.
fn first_at(name: &[u8], sources: &[Source<'_>]) -> Option<usize>
    ensures is { result
        ≡ position (λ source. is_at name.now (source_parts source)) sources.now }
    ensures room { IfSome result (λ first. first < length sources.now) }
{
    sources.iter().position(|source| is_at(name, *source))
}

/// Whether one of them is.
fn is_any_at(name: &[u8], sources: &[Source<'_>]) -> bool
    ensures { result ≡ list_any (λ source. is_at name.now (source_parts source)) sources.now }
{
    sources.iter().any(|source| is_at(name, *source))
}

/// The number of the instruction at the beginning of a symbol, if there is just one.
fn symbol_place(name: &[u8], sources: &[Source<'_>]) -> Option<usize>
    ensures { result ≡ symbol_place name.now (map source_parts sources.now) }
{
    let first = first_at(name, sources)?;
    let later = &sources[first + 1..];
    if is_any_at(name, later) {
        None
    } else {
        Some(first)
    }
}

/// The same as a target's number.
pub(crate) fn symbol_at(name: &[u8], sources: &[Source<'_>]) -> Option<u32>
    ensures { result ≡ symbol_at name.now (map source_parts sources.now) }
{
    let place = symbol_place(name, sources)?;
    if place <= u32::MAX as usize {
        Some(place as u32)
    } else {
        None
    }
}
