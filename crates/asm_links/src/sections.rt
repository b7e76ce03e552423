//! Sections that have one kind in all files.
#![tactic(auto, unfolding(crate::proofs::Unfold::sections))]

ghost use Rattle.std.specs.Prelude.{◌≡◌, ◌<◌, ◌^◌, length, map};
ghost use Rattle.asm_chunks.specs.Order.{row_items};
ghost use Rattle.asm_files.specs.Faults.{GivesAll};
ghost use Rattle.asm_files.specs.Programs.{program_parts};
ghost use Rattle.asm_files.specs.Steps.{Leaves};
ghost use Rattle.asm_links.specs.Sections.{
  kind_of,
  own_judged,
  row_judged,
  rows_judged,
  sections_judged,
};

use crate::replacing::put_at;
use asm_files::{AssemblyFault, Program, in_file};
use asm_layout::{Chunk, ChunkKind};
use asm_tokens::{AsmFault, AsmFaultKind, Place};
use std::alloc::{AllocError, Global};

/// The kind of a chunk.
fn kind_of(chunks: &[Chunk], number: u32) -> ChunkKind
    ensures { result ≡ kind_of chunks.now number }
{
    match chunks.get(number as usize) {
        Some(chunk) => chunk.kind,
        None => ChunkKind::Dropped,
    }
}

/// The chunk that a file puts into a section, if it has one: it has the section's kind, or is the
/// first. Else the file's fault is `Section`.
fn judge_own(
    chunks: &[Chunk],
    kinds: &mut Vec<Option<ChunkKind>>,
    file: u32,
    section: usize,
    own: Option<u32>,
) -> Result<(), AssemblyFault>
    ensures { Leaves result kinds.new.items
        (own_judged chunks.now file section own kinds.old.items) }
{
    let Some(number) = own else {
        return Ok(());
    };
    let kind = kind_of(chunks, number);
    let known = match kinds.get(section) {
        Some(known) => *known,
        None => return Ok(()),
    };
    match known {
        Some(before) if before.rank() != kind.rank() => Err(in_file(
            file,
            AsmFault {
                kind: AsmFaultKind::Section,
                place: Place { line: 0, column: 0 },
            },
        )),
        Some(_) => Ok(()),
        None => {
            put_at(kinds, section, Some(kind));
            Ok(())
        }
    }
}

/// The chunks of a file, by their sections.
fn judge_row(
    chunks: &[Chunk],
    kinds: &mut Vec<Option<ChunkKind>>,
    file: u32,
    row: &[Option<u32>],
) -> Result<(), AssemblyFault>
    ensures { Leaves result kinds.new.items (row_judged chunks.now file row.now kinds.old.items) }
{
    for (section, own) in row.iter().enumerate() {
        judge_own(chunks, kinds, file, section, *own)?;
    }
    Ok(())
}

/// The same of a row in memory.
fn judge_file(
    chunks: &[Chunk],
    kinds: &mut Vec<Option<ChunkKind>>,
    file: u32,
    row: &Vec<Option<u32>>,
) -> Result<(), AssemblyFault>
    ensures { Leaves result kinds.new.items
        (row_judged chunks.now file (row_items row.now) kinds.old.items) }
{
    judge_row(chunks, kinds, file, row.as_slice())
}

/// The chunks of all files.
fn judge_rows(
    chunks: &[Chunk],
    kinds: &mut Vec<Option<ChunkKind>>,
    rows: &[Vec<Option<u32>>],
) -> Result<(), AssemblyFault>
    requires { length rows.now < 2 ^ 32 }
    ensures { Leaves result kinds.new.items
        (rows_judged chunks.now (map row_items rows.now) kinds.old.items) }
{
    for (file, row) in rows.iter().enumerate() {
        judge_file(chunks, kinds, file as u32, row)?;
    }
    Ok(())
}

/// Refuses, with `Section`, the first file that puts a chunk of another kind into a section than a
/// file before it.
pub fn judge_sections(alloc: Global, program: &Program) -> Result<(), AssemblyFault>
    ensures { GivesAll (λ done. done) result (sections_judged (program_parts program.now)) }
{
    let rows = program.made.rows.as_slice();
    if rows.len() > u32::MAX as usize {
        return Err(AssemblyFault::from(AllocError));
    }
    let mut kinds = vec![in alloc; None; program.sections as usize]?;
    judge_rows(program.made.chunks.as_slice(), &mut kinds, rows)
}
