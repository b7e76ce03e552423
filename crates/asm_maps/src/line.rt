//! The lines of a map.

ghost use Rattle.std.specs.Prelude.{Some};
ghost use Rattle.asm_maps.specs.Maps.{label_text, entry_text, stack_text, line_text};

use std::fmt;
use text_numbers::Hex64;

/// The label before an instruction, and how many bytes behind it the instruction is.
#[derive(Clone, Copy, Debug)]
pub struct Label<'a> {
    pub name: &'a str,
    pub offset: u64,
}

/// Where a stack begins, and how many bytes it has.
#[derive(Clone, Copy, Debug)]
pub struct Stack {
    pub base: u64,
    pub size: u64,
}

/// A line of a map.
#[derive(Clone, Copy, Debug)]
pub enum MapLine<'a> {
    /// A file, by its number from 1 on, as it was given.
    File {
        number: usize,
        name: &'a str,
    },
    /// An instruction, by its number from 0 on: the file and line of its statement.
    Code {
        number: usize,
        file: usize,
        line: usize,
        label: Option<Label<'a>>,
    },
    /// The instruction of this number, which stops code that runs past its end.
    Guard(usize),
    /// The instruction of this number, at which a hart ends that returns from its first function.
    Exit(usize),
    /// A symbol in memory.
    Data {
        addr: u64,
        length: u64,
        name: &'a str,
    },
    /// An entry of the capability table.
    Table {
        addr: u64,
        name: &'a str,
    },
    /// A hart: the symbol at which it begins, if that is told by one, and its stack, if it has one.
    Hart {
        number: usize,
        entry: Option<&'a str>,
        stack: Option<Stack>,
    },
}

/// A label as lines have it.
#[derive(Clone, Copy)]
struct LabelText<'a>(Option<Label<'a>>);

impl<'a> fmt::Display for LabelText<'a> {
    ghost output = { λ l. Some (label_text l.0) };

    fn fmt<W: fmt::Write>(&self, f: &mut fmt::Formatter<W>) -> fmt::Result {
        match self.0 {
            Some(label) => write!(f, "{}+{}", label.name, label.offset),
            None => f.write_str("-"),
        }
    }
}

/// The symbol at which a hart begins, as lines have it.
#[derive(Clone, Copy)]
struct EntryText<'a>(Option<&'a str>);

impl<'a> fmt::Display for EntryText<'a> {
    ghost output = { λ e. Some (entry_text e.0) };

    fn fmt<W: fmt::Write>(&self, f: &mut fmt::Formatter<W>) -> fmt::Result {
        match self.0 {
            Some(name) => f.write_str(name),
            None => f.write_str("-"),
        }
    }
}

/// A stack as lines have it.
#[derive(Clone, Copy)]
struct StackText(Option<Stack>);

impl fmt::Display for StackText {
    ghost output = { λ s. Some (stack_text s.0) };

    fn fmt<W: fmt::Write>(&self, f: &mut fmt::Formatter<W>) -> fmt::Result {
        match self.0 {
            Some(stack) => write!(f, "{} {}", Hex64(stack.base), stack.size),
            None => f.write_str("-"),
        }
    }
}

impl<'a> fmt::Display for MapLine<'a> {
    ghost output = { λ l. Some (line_text l) };

    fn fmt<W: fmt::Write>(&self, f: &mut fmt::Formatter<W>) -> fmt::Result {
        match *self {
            MapLine::File { number, name } => write!(f, "file {number} {name}"),
            MapLine::Code {
                number,
                file,
                line,
                label,
            } => write!(f, "code {number} {file}:{line} {}", LabelText(label)),
            MapLine::Guard(number) => write!(f, "code {number} - guard"),
            MapLine::Exit(number) => write!(f, "code {number} - exit"),
            MapLine::Data { addr, length, name } => {
                write!(f, "data {} {length} {name}", Hex64(addr))
            }
            MapLine::Table { addr, name } => write!(f, "table {} {name}", Hex64(addr)),
            MapLine::Hart {
                number,
                entry,
                stack,
            } => {
                let (entry, stack) = (EntryText(entry), StackText(stack));
                write!(f, "hart {number} {entry} stack {stack}")
            }
        }
    }
}
