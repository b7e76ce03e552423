//! The properties of a listing.
#![tactic(auto, unfolding(crate::proofs::Unfold::reading))]

ghost use Rattle.std.specs.Prelude.{◌≡◌, ◌≤◌, ◌<◌, ◌+◌, ◌^◌, length, take, drop, true, Ok, Some};
ghost use Rattle.std.specs.List.{list_all};
ghost use Rattle.std.specs.Str.{IsAscii};
ghost use Rattle.grammar.specs.Lines.{is_plain, lines_of};
ghost use Rattle.listings.specs.Meaning.{listing_meaning};
ghost use Rattle.explore_properties.specs.Lines.{trimmed};
ghost use Rattle.explore_properties.specs.Properties.{none_yet};
ghost use Rattle.explore_properties.specs.Reading.{
  AddsByte,
  GivesByte,
  GivesPlace,
  line_read,
  lines_read,
  marked_read,
  properties_of,
  trimmed_read,
  with_property,
  with_statement,
  with_sweep,
};
ghost use Rattle.listing_maps.specs.Names.{names_of};

use crate::claims::{Claim, MAX_PROPERTIES, Properties, Property};
use crate::fault::{LineFault, PropertyFault, PropertyPlace};
use crate::lines::{blank_count, is_marked, is_parted, trimmed};
use crate::statements::{Reader, Span, Statement};
use cheri_model::Image;
use explore_sweeps::{MAX_SWEEPS, Sweep};
use listing_maps::Names;
use std::alloc::Global;
use std::str;

/// The text of bytes that are all ASCII.
fn ascii_text(bytes: &[u8]) -> &str
    requires { IsAscii bytes.now }
    ensures { result.now ≡ bytes.now }
{
    let Ok(text) = str::from_utf8(bytes) else {
        unreachable!()
    };
    text
}

impl<'a> Properties<'a> {
    /// A property more.
    fn add_property(&mut self, property: Property<'a>) -> Result<(), LineFault>
        ensures { AddsByte result self.new
            (with_property property.entry.line property.entry.text property.entry.claim self.old) }
    {
        if self.properties.len() == MAX_PROPERTIES {
            return Err(LineFault::Byte(0));
        }
        let Ok(()) = self.properties.push(property) else {
            return Err(LineFault::NoMemory);
        };
        Ok(())
    }

    /// A sweep more, whose range begins at this byte of its line.
    fn add_sweep(&mut self, range: usize, sweep: Sweep) -> Result<(), LineFault>
        ensures { AddsByte result self.new (with_sweep range sweep self.old) }
    {
        if self.sweeps.len() == MAX_SWEEPS {
            return Err(LineFault::Byte(range));
        }
        let Ok(()) = self.sweeps.push(sweep) else {
            return Err(LineFault::NoMemory);
        };
        Ok(())
    }

    /// What a line of this number said.
    fn add(&mut self, line: usize, text: &'a str, statement: Statement) -> Result<(), LineFault>
        ensures { AddsByte result self.new
            (with_statement line text.now statement self.old) }
    {
        match statement {
            Statement::Claim(claim) => self.add_property(Property { line, text, claim }),
            Statement::Sweep(sweep, range) => self.add_sweep(range, sweep),
        }
    }
}

impl Reader<'_> {
    /// Adds what a line of this number says whose text begins with `#!` at this byte.
    fn read_marked<'t>(
        self,
        alloc: Global,
        number: usize,
        line: &'t [u8],
        start: usize,
        read: &mut Properties<'t>,
    ) -> Result<(), LineFault>
        requires there { start + 2 ≤ length line.now }
        requires ascii { IsAscii line.now }
        ensures { AddsByte result read.new (marked_read (names_of self.entry.names.now)
            self.entry.image.now number read.old line.now start) }
    {
        if !is_parted(&line[start..]) {
            return Err(LineFault::Byte(start + 2));
        }
        let begin = start + 3;
        let text = ascii_text(&line[begin..]);
        let span = Span {
            begin,
            end: line.len(),
        };
        let statement = self.statement(alloc, span, text)?;
        read.add(number, text, statement)
    }

    /// Adds what a line of this number says, which has no spaces and tabs at its end.
    fn read_trimmed<'t>(
        self,
        alloc: Global,
        number: usize,
        line: &'t [u8],
        read: &mut Properties<'t>,
    ) -> Result<(), LineFault>
        requires ascii { IsAscii line.now }
        ensures { AddsByte result read.new (trimmed_read (names_of self.entry.names.now)
            self.entry.image.now number read.old line.now) }
    {
        let start = blank_count(line);
        if !is_marked(&line[start..]) {
            return Ok(());
        }
        self.read_marked(alloc, number, line, start, read)
    }

    /// Adds what a line of this number says.
    fn read_line<'t>(
        self,
        alloc: Global,
        number: usize,
        line: &'t [u8],
        read: &mut Properties<'t>,
    ) -> Result<(), LineFault>
        requires plain { list_all is_plain line.now ≡ true }
        ensures { AddsByte result read.new (line_read (names_of self.entry.names.now)
            self.entry.image.now number read.old line.now) }
    {
        self.read_trimmed(alloc, number, trimmed(line), read)
    }

    /// What the lines of a text say.
    fn read_lines<'t>(self, alloc: Global, text: &'t [u8]) -> Result<Properties<'t>, PropertyFault>
        requires plain { list_all (λ line. list_all is_plain line) (lines_of text.now) ≡ true }
        ensures { GivesPlace result (lines_read (names_of self.entry.names.now)
            self.entry.image.now 1 none_yet (lines_of text.now)) }
    {
        let mut read = Properties {
            properties: Vec::new(alloc),
            sweeps: Vec::new(alloc),
        };
        let mut line = 1;
        for bytes in text.split(|byte| *byte == b'\n') {
            match self.read_line(alloc, line, bytes, &mut read) {
                Ok(()) => line += 1,
                Err(fault) => return Err(fault.at(line)),
            }
        }
        Ok(read)
    }
}

/// The properties that a good listing carries, of which this is the image, by what may be named
/// beside it, from the first line on. The first fault is reported; a listing without a property has
/// one in line 0. Running out of memory says nothing of the listing.
pub fn read_properties<'t>(
    alloc: Global,
    names: &Names<'_>,
    image: &Image,
    text: &'t [u8],
) -> Result<Properties<'t>, PropertyFault>
    requires { listing_meaning text.now ≡ Ok image.now }
    ensures { GivesPlace result (properties_of (names_of names.now) image.now text.now) }
{
    let reader = Reader { names, image };
    let read = reader.read_lines(alloc, text)?;
    if read.properties.is_empty() {
        return Err(PropertyFault::Place(PropertyPlace { line: 0, byte: 0 }));
    }
    Ok(read)
}
