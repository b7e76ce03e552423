//! The contents of code and memory.
#![tactic(auto, unfolding(crate::proofs::Unfold::contents))]

ghost use Rattle.std.specs.Prelude.{◌≡◌, IfOk, map};
ghost use Rattle.asm_files.specs.Faults.{GivesAll};
ghost use Rattle.asm_files.specs.Programs.{file_parts};
ghost use Rattle.asm_files.specs.Steps.{Leaves, each_from};
ghost use Rattle.asm_late.specs.Late.{late_parts};
ghost use Rattle.asm_statements.specs.Statements.{statement_parts};
ghost use Rattle.asm_data.specs.Contents.{
  contents_begun,
  contents_of,
  contents_parts,
  file_put,
  statement_put,
  unless_dropped,
};

use crate::data::{store_capabilities, store_numbers};
use crate::strings::{store_fill, store_strings};
use crate::table::store_table;
use asm_code::{Code, Site, begin_code};
use asm_files::{AssemblyFault, File};
use asm_late::Late;
use asm_layout::ChunkKind;
use asm_statements::{Body, Statement};
use cheri_model::MAX_RAM_BYTES;
use std::alloc::{AllocError, Global};
use tagged_mem::Ram;

/// What is in code and in memory.
#[derive(Drop)]
pub struct Contents {
    pub code: Code,
    pub memory: Ram,
}

/// The contents before the first statement. Fails only when out of memory.
fn begin_contents(alloc: Global, late: Late) -> Result<Contents, AllocError>
    ensures { IfOk result (λ contents. contents_parts contents
        ≡ contents_begun (late_parts late.entry)) }
{
    let code = begin_code(alloc, late)?;
    match Ram::new(alloc, MAX_RAM_BYTES) {
        Ok(memory) => Ok(Contents { code, memory }),
        Err(_) => Err(AllocError),
    }
}

impl Contents {
    /// Puts there what a statement has, unless nothing is kept of its chunk.
    fn put_unless_dropped(
        &mut self,
        alloc: Global,
        site: Site,
        statement: &Statement,
    ) -> Result<(), AssemblyFault>
        ensures { Leaves result (contents_parts self.new) (unless_dropped (late_parts
            site.entry.late)
            site.entry.file site.entry.number (statement_parts statement.now) (contents_parts
            self.old)) }
    {
        if site.kind().rank() == ChunkKind::Dropped.rank() {
            return Ok(());
        }
        let operands = statement.operands.as_slice();
        let memory = &mut self.memory;
        match statement.body {
            Body::Instruction(_, Some(operation)) => {
                self.code.put_operation(alloc, site, statement, &operation)
            }
            Body::Data(_, width) => store_numbers(alloc, site, width, operands, memory),
            Body::Chericap(_) => store_capabilities(alloc, site, operands, memory),
            Body::Ascii(_) => Ok(store_strings(alloc, site, statement, false, memory)?),
            Body::Asciz(_) => Ok(store_strings(alloc, site, statement, true, memory)?),
            Body::Align(_) | Body::Balign(_) | Body::Zero(_) => {
                Ok(store_fill(alloc, site, memory)?)
            }
            _ => Ok(()),
        }
    }

    /// Puts there what a statement has. Values and sizes of symbols are judged.
    fn put_statement(
        &mut self,
        alloc: Global,
        site: Site,
        statement: &Statement,
    ) -> Result<(), AssemblyFault>
        ensures { Leaves result (contents_parts self.new) (statement_put (late_parts
            site.entry.late)
            site.entry.file site.entry.number (statement_parts statement.now) (contents_parts
            self.old)) }
    {
        match statement.body {
            Body::Set(_) => site.late.judge_set(alloc, site.file, site.number),
            Body::Size(_) => site.late.judge_size(alloc, site.file, site.number),
            _ => self.put_unless_dropped(alloc, site, statement),
        }
    }

    /// Puts there what the statements of a file have.
    fn put_file(
        &mut self,
        alloc: Global,
        late: Late,
        file: usize,
        statements: &[Statement],
    ) -> Result<(), AssemblyFault>
        ensures { Leaves result (contents_parts self.new) (each_from
            (statement_put (late_parts late.entry) file) 0 (map statement_parts statements.now)
            (contents_parts self.old)) }
    {
        for (number, statement) in statements.iter().enumerate() {
            let site = Site { late, file, number };
            self.put_statement(alloc, site, statement)?;
        }
        Ok(())
    }

    /// Puts there what the statements of files have.
    fn put_files(&mut self, alloc: Global, late: Late, files: &[File]) -> Result<(), AssemblyFault>
        ensures { Leaves result (contents_parts self.new) (each_from (file_put (late_parts
            late.entry)) 0
            (map file_parts files.now) (contents_parts self.old)) }
    {
        for (number, file) in files.iter().enumerate() {
            self.put_file(alloc, late, number, file.statements.as_slice())?;
        }
        Ok(())
    }
}

/// The contents of code and memory: what the statements of all files put there, in order, and then
/// the capability table. Fails with the first fault of a statement, at the token where it is told.
pub fn read_contents(alloc: Global, late: Late) -> Result<Contents, AssemblyFault>
    ensures { GivesAll contents_parts result (contents_of (late_parts late.entry)) }
{
    let mut contents = begin_contents(alloc, late)?;
    contents.put_files(alloc, late, late.program.files.as_slice())?;
    store_table(
        alloc,
        late,
        late.linked.table.symbols.as_slice(),
        &mut contents.memory,
    )?;
    Ok(contents)
}
