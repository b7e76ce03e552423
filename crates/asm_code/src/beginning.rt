//! Code before its statements' instructions are known.
#![tactic(auto, unfolding(crate::proofs::Unfold::beginning))]

ghost use Rattle.std.specs.Prelude.{◌≡◌, IfOk, map};
ghost use Rattle.asm_files.specs.Programs.{file_parts};
ghost use Rattle.asm_late.specs.Late.{late_parts};
ghost use Rattle.asm_statements.specs.Statements.{statement_parts};
ghost use Rattle.asm_code.specs.Code.{code_parts};
ghost use Rattle.asm_code.specs.Beginning.{
  all_marked,
  code_begun,
  count_of,
  file_marked,
  name_or,
  origin_of,
  statement_marked,
  steps_from,
};

use crate::code::Code;
use crate::standing::Site;
use asm_expressions::place_at;
use asm_files::{File, Stand};
use asm_instructions::{Origin, fill_gaps, mark};
use asm_late::Late;
use asm_layout::ChunkKind;
use asm_statements::{Body, Statement};
use cheri_model::{INSTRUCTION_BYTES, Instr, MAX_INSTRUCTIONS, Reg};
use std::alloc::{AllocError, Global};

/// The token of the name of an instruction, or of padding; else a statement's first token.
fn name_or(first: usize, body: Body) -> usize
    ensures { result ≡ name_or first body }
{
    match body {
        Body::Instruction(at, _) | Body::Align(at) | Body::Balign(at) => at,
        _ => first,
    }
}

/// How many instructions a statement has.
fn count_of(stand: Stand) -> usize
    ensures { result ≡ count_of stand }
{
    stand.end.saturating_sub(stand.offset) as usize / INSTRUCTION_BYTES as usize
}

impl Site<'_, '_> {
    /// Where a statement's instructions come from.
    fn origin(self, statement: &Statement) -> Origin
        ensures { result ≡ origin_of (late_parts self.entry.late) self.entry.file self.entry.number
            (statement_parts statement.now) }
    {
        let tokens = self.late.program.tokens_in(self.file);
        Origin {
            file: self.file,
            line: place_at(tokens, name_or(statement.first, statement.body)).line,
            statement: Some(self.number),
        }
    }

    /// Marks a statement's instructions with their origin.
    fn mark(self, statement: &Statement, marks: &mut [Option<Origin>])
        ensures { marks.new ≡ statement_marked (late_parts self.entry.late) self.entry.file
            self.entry.number
            (statement_parts statement.now) marks.old }
    {
        if self.kind().rank() == ChunkKind::Code.rank() {
            let count = count_of(self.stand());
            mark(marks, self.index() as usize, count, self.origin(statement));
        }
    }
}

/// Marks the instructions of a file's statements with their origins.
fn mark_file(late: Late, file: usize, statements: &[Statement], marks: &mut [Option<Origin>])
    ensures { marks.new ≡ steps_from (statement_marked (late_parts late.entry) file) 0
        (map statement_parts statements.now) marks.old }
{
    for (number, statement) in statements.iter().enumerate() {
        let site = Site { late, file, number };
        site.mark(statement, marks);
    }
}

/// Marks the instructions of all statements of files with their origins.
fn mark_all(late: Late, files: &[File], marks: &mut [Option<Origin>])
    ensures { marks.new ≡ steps_from (file_marked (late_parts late.entry)) 0
        (map file_parts files.now) marks.old }
{
    for (number, file) in files.iter().enumerate() {
        mark_file(late, number, file.statements.as_slice(), marks);
    }
}

/// Code before its statements' instructions are known: as many that do nothing as there is room
/// for, with their origins. Where a program has more instructions than it may have, the others are
/// left out. Fails only when out of memory.
pub fn begin_code(alloc: Global, late: Late) -> Result<Code, AllocError>
    ensures { IfOk result (λ code. code_parts code ≡ code_begun (late_parts late.entry)) }
{
    let room = late.linked.instructions.min(MAX_INSTRUCTIONS as u64) as usize;
    let mut marks = vec![in alloc; None; room]?;
    mark_all(late, late.program.files.as_slice(), marks.as_mut_slice());
    let nop = Instr::Addi {
        cd: Reg::new(0),
        c1: Reg::new(0),
        imm: 0,
    };
    Ok(Code {
        instructions: vec![in alloc; nop; room]?,
        origins: fill_gaps(alloc, marks.as_slice())?,
    })
}
