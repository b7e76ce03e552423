//! Files as one program: what their statements make.
#![tactic(auto, unfolding(crate::proofs::Unfold::files))]

ghost use Rattle.std.specs.Prelude.{◌≡◌, ◌<◌, ◌^◌, IfOk, OnOk, length, map};
ghost use Rattle.asm_tokens.specs.Tokens.{token_parts};
ghost use Rattle.asm_statements.specs.Statements.{statement_parts};
ghost use Rattle.asm_files.specs.Faults.{GivesAll};
ghost use Rattle.asm_files.specs.Files.{
  Reads,
  file_begun,
  file_ended,
  file_put,
  made_of,
  no_made,
  program_of,
  reading_parts,
  statement_step,
  statements_put,
  taken_from,
};
ghost use Rattle.asm_files.specs.Programs.{file_parts, made_parts, program_parts, text_of};
ghost use Rattle.asm_files.specs.Sections.{sections_parts};
ghost use Rattle.asm_files.specs.Steps.{Leaves};

use crate::fault::{AssemblyFault, in_file};
use crate::program::{File, Made, Program};
use crate::requests::read_requests;
use crate::sections::{Sections, numbered};
use crate::stand::{Stand, put_statement};
use crate::texts::{judge_lengths, push_all_names, read_files};
use asm_chunks::Chunks;
use asm_drafts::Draft;
use asm_statements::Statement;
use asm_symbols::{Locals, Names, Symbols, no_locals};
use asm_tokens::{AsmFault, Token};
use std::alloc::{AllocError, Global};
use std::mem::replace;

/// What the statements of a file make, and where those so far stand.
#[derive(Drop)]
struct Reading<'a> {
    draft: Draft<'a>,
    stands: Vec<Stand>,
}

impl<'a> Reading<'a> {
    /// One more statement, by its number in its file.
    fn put(
        &mut self,
        alloc: Global,
        sections: &Sections,
        tokens: &[Token<'a>],
        number: usize,
        statement: &Statement,
    ) -> Result<(), AsmFault>
        ensures { Reads result (reading_parts self.new) (statement_step
            (sections_parts sections.now) (map token_parts tokens.now) number
            (statement_parts statement.now) (reading_parts self.old)) }
    {
        let entry = sections.entry_of(alloc, tokens, statement)?;
        let draft = &mut self.draft;
        let stand = put_statement(alloc, draft, tokens, number, statement, entry)?;
        self.stands.push(stand)?;
        Ok(())
    }

    /// The statements of a file, in order. Fails at the first token at which one can't go on.
    fn put_all(
        &mut self,
        alloc: Global,
        sections: &Sections,
        tokens: &[Token<'a>],
        statements: &[Statement],
    ) -> Result<(), AsmFault>
        ensures { Reads result (reading_parts self.new) (statements_put
            (sections_parts sections.now) (map token_parts tokens.now)
            (map statement_parts statements.now) (reading_parts self.old)) }
    {
        for (number, statement) in statements.iter().enumerate() {
            self.put(alloc, sections, tokens, number, statement)?;
        }
        Ok(())
    }
}

/// Before the first file.
fn no_made<'a>(alloc: Global) -> Made<'a>
    ensures { made_parts result ≡ no_made }
{
    Made {
        stands: Vec::new(alloc),
        own: Vec::new(alloc),
        locals: Vec::new(alloc),
        wanted: Vec::new(alloc),
        rows: Vec::new(alloc),
        chunks: Vec::new(alloc),
        symbols: Vec::new(alloc),
    }
}

impl<'a> Made<'a> {
    /// Begins the file of a number, of so many sections, with the chunks and symbols of the files
    /// before it, which are then the reading's. Fails only when out of memory.
    fn begin_file(
        &mut self,
        alloc: Global,
        sections: u32,
        number: u32,
    ) -> Result<Reading<'a>, AllocError>
        ensures begun { IfOk result (λ reading.
            reading_parts reading ≡ file_begun sections number (made_parts self.old)) }
        ensures taken { OnOk result (made_parts self.new ≡ taken_from (made_parts self.old)) }
    {
        let mut chunks = Chunks {
            chunks: replace(&mut self.chunks, Vec::new(alloc)),
            own: Vec::new(alloc),
            here: 0,
            before: 0,
        };
        let symbols = Symbols {
            definitions: replace(&mut self.symbols, Vec::new(alloc)),
            own: Names::new(alloc),
            wanted: Names::new(alloc),
            file: number,
        };
        if let Err(_) = chunks.begin_file(alloc, sections as usize, 0) {
            return Err(AllocError);
        }
        Ok(Reading {
            draft: Draft {
                chunks,
                symbols,
                locals: no_locals(alloc),
            },
            stands: Vec::new(alloc),
        })
    }

    /// What a file made, once it is at its end. Fails only when out of memory.
    fn end_file(&mut self, reading: Reading<'a>) -> Result<(), AllocError>
        ensures { OnOk result (made_parts self.new
            ≡ file_ended (made_parts self.old) (reading_parts reading.entry)) }
    {
        let Reading { draft, stands } = reading;
        let Draft {
            chunks,
            symbols,
            locals,
        } = draft;
        let Chunks {
            chunks,
            own: row,
            ..
        } = chunks;
        let Symbols {
            definitions,
            own,
            wanted,
            ..
        } = symbols;
        let Locals { places, .. } = locals;
        self.stands.push(stands)?;
        self.own.push(own)?;
        self.locals.push(places)?;
        self.wanted.push(wanted)?;
        self.rows.push(row)?;
        self.chunks = chunks;
        self.symbols = definitions;
        Ok(())
    }

    /// The file of a number: what its statements make. Fails at the first token at which one can't
    /// go on.
    fn put_file(
        &mut self,
        alloc: Global,
        sections: &Sections,
        number: u32,
        file: &File<'a>,
    ) -> Result<(), AssemblyFault>
        ensures { Leaves result (made_parts self.new) (file_put (sections_parts sections.now)
            number (file_parts file.now) (made_parts self.old)) }
    {
        let mut reading = self.begin_file(alloc, sections.count, number)?;
        let (tokens, statements) = (file.tokens.as_slice(), file.statements.as_slice());
        if let Err(fault) = reading.put_all(alloc, sections, tokens, statements) {
            return Err(in_file(number, fault));
        }
        self.end_file(reading)?;
        Ok(())
    }
}

/// What the statements of all files make.
fn make_files<'a>(
    alloc: Global,
    sections: &Sections,
    files: &[File<'a>],
) -> Result<Made<'a>, AssemblyFault>
    requires { length files.now < 2 ^ 32 }
    ensures { GivesAll made_parts result
        (made_of (sections_parts sections.now) (map file_parts files.now)) }
{
    let mut made = no_made(alloc);
    for (number, file) in files.iter().enumerate() {
        made.put_file(alloc, sections, number as u32, file)?;
    }
    Ok(made)
}

/// The program that files are, by their texts. Fails at the first file that is too long, with
/// `Size`; else at the first place where no token begins, with `Byte`; else at the first request
/// that is none, with `Hart`; else at the first token at which a statement can't go on.
pub fn read_program<'a>(alloc: Global, texts: &[&'a [u8]]) -> Result<Program<'a>, AssemblyFault>
    requires { length texts.now < 2 ^ 32 }
    ensures { GivesAll program_parts result (program_of (map text_of texts.now)) }
{
    judge_lengths(texts)?;
    let files = read_files(alloc, texts)?;
    // There are as many as texts.
    if files.len() > u32::MAX as usize {
        return Err(AssemblyFault::from(AllocError));
    }
    let requests = read_requests(alloc, files.as_slice())?;
    let mut names = Vec::new(alloc);
    push_all_names(alloc, &mut names, files.as_slice())?;
    let sections = numbered(alloc, names.as_slice())?;
    let made = make_files(alloc, &sections, files.as_slice())?;
    Ok(Program {
        files,
        requests,
        sections: sections.count,
        made,
    })
}
