//! What a map's lines say, one after another.
#![tactic(auto, using(crate::proofs::DraftLemmas::drafts), unfolding(crate::proofs::Unfold::drafts))]

ghost use Rattle.std.specs.Prelude.{◌≡◌, option_map};
ghost use Rattle.asm_map_reader.specs.Drafts.{draft_parts};
ghost use Rattle.asm_map_reader.specs.Lines.{label_parts, line_parts, name_parts};
ghost use Rattle.asm_map_reader.specs.Sources.{source_parts};
ghost use Rattle.asm_map_reader.specs.Reading.{
  FillsLine,
  empty_draft,
  has_code,
  with_file,
  with_source,
  with_statement,
  with_symbol,
  with_entry,
  with_hart,
  with_line,
  with_end,
  with_body,
  with_head,
  with_rest,
  with_text,
  file_name,
};

use crate::fault::LineFault;
use crate::line::line_of;
use crate::source::Source;
use asm_maps::{Label, MapLine};
use std::alloc::Global;

/// What a program has that its map has, too.
#[derive(Clone, Copy)]
pub struct Counts {
    pub instructions: usize,
    pub harts: usize,
}

/// How far a map was read.
#[derive(Clone, Copy)]
pub(crate) enum Stage {
    /// Not at all.
    Head,
    /// Its first line was.
    Body,
    /// Its last line was.
    Ended,
    /// The newline of that was, too.
    Closed,
}

/// What a map's lines say, one after another.
#[derive(Drop)]
pub(crate) struct Draft<'a> {
    pub stage: Stage,
    pub files: Vec<&'a str>,
    pub sources: Vec<Source<'a>>,
    pub has_entries: bool,
    pub harts: usize,
}

/// What lines of which there is none say.
pub(crate) fn empty_draft<'a>(alloc: Global) -> Draft<'a>
    ensures { draft_parts result ≡ empty_draft }
{
    Draft {
        stage: Stage::Head,
        files: Vec::new(alloc),
        sources: Vec::new(alloc),
        has_entries: false,
        harts: 0,
    }
}

impl<'a> Draft<'a> {
    /// One file more.
    fn with_file(&mut self, number: usize, name: &'a str) -> Result<(), LineFault>
        ensures { FillsLine result (draft_parts self.new)
            (with_file (draft_parts self.old) number name.now) }
    {
        if number != self.files.len() + 1 || !self.sources.is_empty() {
            return Err(LineFault::Wrong);
        }
        match self.files.push(name) {
            Ok(()) => Ok(()),
            Err(_) => Err(LineFault::NoMemory),
        }
    }

    /// Where one instruction more comes from.
    fn with_source(
        &mut self,
        counts: Counts,
        number: usize,
        source: Source<'a>,
    ) -> Result<(), LineFault>
        ensures { FillsLine result (draft_parts self.new)
            (with_source counts (draft_parts self.old) number (source_parts source.entry)) }
    {
        if number != self.sources.len() || number >= counts.instructions {
            return Err(LineFault::Wrong);
        }
        match self.sources.push(source) {
            Ok(()) => Ok(()),
            Err(_) => Err(LineFault::NoMemory),
        }
    }

    /// The name of a file, by its number.
    fn file_name(&self, number: usize) -> Option<&'a str>
        ensures { option_map name_parts result ≡ file_name (draft_parts self.now) number }
    {
        if number == 0 || number > self.files.len() {
            return None;
        }
        Some(self.files[number - 1])
    }

    /// The statement that one instruction more comes from.
    fn with_statement(
        &mut self,
        counts: Counts,
        number: usize,
        place: usize,
        line: usize,
        label: Option<Label<'a>>,
    ) -> Result<(), LineFault>
        ensures { FillsLine result (draft_parts self.new) (with_statement counts
            (draft_parts self.old) number place line (option_map label_parts label.entry)) }
    {
        let Some(file) = self.file_name(place) else {
            return Err(LineFault::Wrong);
        };
        self.with_source(counts, number, Source::Statement { file, line, label })
    }

    /// Whether all instructions are there.
    fn has_code(&self, counts: Counts) -> bool
        ensures { result ≡ has_code counts (draft_parts self.now) }
    {
        self.sources.len() == counts.instructions
    }

    /// One symbol more.
    fn with_symbol(&mut self, counts: Counts) -> Result<(), LineFault>
        ensures { FillsLine result (draft_parts self.new)
            (with_symbol counts (draft_parts self.old)) }
    {
        if self.has_code(counts) && !self.has_entries && self.harts == 0 {
            Ok(())
        } else {
            Err(LineFault::Wrong)
        }
    }

    /// One entry of the table more.
    fn with_entry(&mut self, counts: Counts) -> Result<(), LineFault>
        ensures { FillsLine result (draft_parts self.new)
            (with_entry counts (draft_parts self.old)) }
    {
        if !self.has_code(counts) || self.harts != 0 {
            return Err(LineFault::Wrong);
        }
        self.has_entries = true;
        Ok(())
    }

    /// One hart more.
    fn with_hart(&mut self, counts: Counts, number: usize) -> Result<(), LineFault>
        ensures { FillsLine result (draft_parts self.new)
            (with_hart counts (draft_parts self.old) number) }
    {
        if !self.has_code(counts) || number != self.harts || number >= counts.harts {
            return Err(LineFault::Wrong);
        }
        self.harts += 1;
        Ok(())
    }

    /// One line more, but the first and the last.
    fn with_line(&mut self, counts: Counts, line: MapLine<'a>) -> Result<(), LineFault>
        ensures { FillsLine result (draft_parts self.new)
            (with_line counts (draft_parts self.old) (line_parts line.entry)) }
    {
        match line {
            MapLine::File { number, name } => self.with_file(number, name),
            MapLine::Code {
                number,
                file,
                line,
                label,
            } => self.with_statement(counts, number, file, line, label),
            MapLine::Guard(number) => self.with_source(counts, number, Source::Guard),
            MapLine::Exit(number) => self.with_source(counts, number, Source::Exit),
            MapLine::Data { .. } => self.with_symbol(counts),
            MapLine::Table { .. } => self.with_entry(counts),
            MapLine::Hart { number, .. } => self.with_hart(counts, number),
        }
    }

    /// The last line.
    fn with_end(&mut self, counts: Counts) -> Result<(), LineFault>
        ensures { FillsLine result (draft_parts self.new) (with_end counts (draft_parts self.old)) }
    {
        if !self.has_code(counts) || self.harts != counts.harts {
            return Err(LineFault::Wrong);
        }
        self.stage = Stage::Ended;
        Ok(())
    }

    /// A line after the first, up to the last.
    fn with_body(&mut self, counts: Counts, text: &'a [u8]) -> Result<(), LineFault>
        ensures { FillsLine result (draft_parts self.new)
            (with_body counts (draft_parts self.old) text.now) }
    {
        if text == b"end".as_slice() {
            return self.with_end(counts);
        }
        match line_of(text) {
            Some(line) => self.with_line(counts, line),
            None => Err(LineFault::Wrong),
        }
    }

    /// The first line.
    fn with_head(&mut self, text: &[u8]) -> Result<(), LineFault>
        ensures { FillsLine result (draft_parts self.new)
            (with_head (draft_parts self.old) text.now) }
    {
        if text != b"cheri-asm map 1".as_slice() {
            return Err(LineFault::Wrong);
        }
        self.stage = Stage::Body;
        Ok(())
    }

    /// What is after the newline of the last line.
    fn with_rest(&mut self, text: &[u8]) -> Result<(), LineFault>
        ensures { FillsLine result (draft_parts self.new)
            (with_rest (draft_parts self.old) text.now) }
    {
        if !text.is_empty() {
            return Err(LineFault::Wrong);
        }
        self.stage = Stage::Closed;
        Ok(())
    }

    /// A line of a map.
    pub(crate) fn with_text(&mut self, counts: Counts, text: &'a [u8]) -> Result<(), LineFault>
        ensures { FillsLine result (draft_parts self.new)
            (with_text counts (draft_parts self.old) text.now) }
    {
        match self.stage {
            Stage::Head => self.with_head(text),
            Stage::Body => self.with_body(counts, text),
            Stage::Ended => self.with_rest(text),
            Stage::Closed => Err(LineFault::Wrong),
        }
    }
}
