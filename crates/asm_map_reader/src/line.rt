//! The lines of a map but the first and the last.
#![tactic(auto, unfolding(crate::proofs::Unfold::lines))]

ghost use Rattle.std.specs.Prelude.{◌≡◌, option_map};
ghost use Rattle.asm_map_reader.specs.Lines.{
  label_parts,
  name_parts,
  stack_parts,
  line_parts,
  label_of,
  entry_of,
  stack_of,
  file_line,
  statement_line,
  code_line,
  data_line,
  table_line,
  hart_line,
  named_line,
  line_of,
};

use crate::words::{address_of, plain_number, symbol_of, text_of};
use asm_maps::{Label, MapLine, Stack};
use text_parts::parted;

/// The label before an instruction, if there is one.
fn label_of(text: &[u8]) -> Option<Option<Label<'_>>>
    ensures { option_map (option_map label_parts) result ≡ label_of text.now }
{
    if text == b"-".as_slice() {
        return Some(None);
    }
    let (name, offset) = parted(b'+', text)?;
    let name = symbol_of(name)?;
    let offset = plain_number(offset)?;
    Some(Some(Label { name, offset }))
}

/// The symbol at which a hart begins, if that is told by one.
fn entry_of(text: &[u8]) -> Option<Option<&str>>
    ensures { option_map (option_map name_parts) result ≡ entry_of text.now }
{
    if text == b"-".as_slice() {
        return Some(None);
    }
    Some(Some(symbol_of(text)?))
}

/// A hart's stack, if it has one.
fn stack_of(text: &[u8]) -> Option<Option<Stack>>
    ensures { option_map (option_map stack_parts) result ≡ stack_of text.now }
{
    if text == b"stack -".as_slice() {
        return Some(None);
    }
    let (word, rest) = parted(b' ', text)?;
    let (base, size) = parted(b' ', rest)?;
    let base = address_of(base)?;
    let size = plain_number(size)?;
    if word == b"stack".as_slice() {
        Some(Some(Stack { base, size }))
    } else {
        None
    }
}

/// The line of a file, without its first word.
fn file_line(text: &[u8]) -> Option<MapLine<'_>>
    ensures { option_map line_parts result ≡ file_line text.now }
{
    let (number, name) = parted(b' ', text)?;
    let number = plain_number(number)? as usize;
    let name = text_of(name)?;
    Some(MapLine::File { number, name })
}

/// The line of an instruction that a statement gives, after the instruction's number.
fn statement_line(number: usize, text: &[u8]) -> Option<MapLine<'_>>
    ensures { option_map line_parts result ≡ statement_line number text.now }
{
    let (place, label) = parted(b' ', text)?;
    let (file, line) = parted(b':', place)?;
    let file = plain_number(file)? as usize;
    let line = plain_number(line)? as usize;
    let label = label_of(label)?;
    Some(MapLine::Code {
        number,
        file,
        line,
        label,
    })
}

/// The line of an instruction, without its first word.
fn code_line(text: &[u8]) -> Option<MapLine<'_>>
    ensures { option_map line_parts result ≡ code_line text.now }
{
    let (number, source) = parted(b' ', text)?;
    let number = plain_number(number)? as usize;
    if source == b"- guard".as_slice() {
        return Some(MapLine::Guard(number));
    }
    if source == b"- exit".as_slice() {
        return Some(MapLine::Exit(number));
    }
    statement_line(number, source)
}

/// The line of a symbol in memory, without its first word.
fn data_line(text: &[u8]) -> Option<MapLine<'_>>
    ensures { option_map line_parts result ≡ data_line text.now }
{
    let (addr, rest) = parted(b' ', text)?;
    let addr = address_of(addr)?;
    let (length, name) = parted(b' ', rest)?;
    let length = plain_number(length)?;
    let name = symbol_of(name)?;
    Some(MapLine::Data { addr, length, name })
}

/// The line of an entry of the capability table, without its first word.
fn table_line(text: &[u8]) -> Option<MapLine<'_>>
    ensures { option_map line_parts result ≡ table_line text.now }
{
    let (addr, name) = parted(b' ', text)?;
    let addr = address_of(addr)?;
    let name = symbol_of(name)?;
    Some(MapLine::Table { addr, name })
}

/// The line of a hart, without its first word.
fn hart_line(text: &[u8]) -> Option<MapLine<'_>>
    ensures { option_map line_parts result ≡ hart_line text.now }
{
    let (number, rest) = parted(b' ', text)?;
    let number = plain_number(number)? as usize;
    let (entry, stack) = parted(b' ', rest)?;
    let entry = entry_of(entry)?;
    let stack = stack_of(stack)?;
    Some(MapLine::Hart {
        number,
        entry,
        stack,
    })
}

/// The line that begins with this word.
fn named_line<'a>(word: &[u8], text: &'a [u8]) -> Option<MapLine<'a>>
    ensures { option_map line_parts result ≡ named_line word.now text.now }
{
    if word == b"file".as_slice() {
        return file_line(text);
    }
    if word == b"code".as_slice() {
        return code_line(text);
    }
    if word == b"data".as_slice() {
        return data_line(text);
    }
    if word == b"table".as_slice() {
        return table_line(text);
    }
    if word == b"hart".as_slice() {
        return hart_line(text);
    }
    None
}

/// A line of a map, but its first and its last; `None` where it is none.
pub(crate) fn line_of(text: &[u8]) -> Option<MapLine<'_>>
    ensures { option_map line_parts result ≡ line_of text.now }
{
    let (word, rest) = parted(b' ', text)?;
    named_line(word, rest)
}
