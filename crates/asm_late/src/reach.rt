//! What code reaches.
#![tactic(auto, unfolding(crate::proofs::Unfold::reaches))]

ghost use Rattle.std.specs.Prelude.{◌≡◌, ◌%◌, ◌^◌, IfOk};
ghost use Rattle.asm_files.specs.Programs.{program_parts};
ghost use Rattle.asm_tables.specs.Tables.{count_in};
ghost use Rattle.asm_late.specs.Scene.{scene_parts, scene_program};
ghost use Rattle.asm_late.specs.Reach.{
  file_leaves,
  instructions_to,
  is_beyond_code,
  leaves_code,
  reach_of,
  some_leaves,
  with_exit,
};

use crate::lengths::known_operand;
use crate::scene::ProgramScene;
use crate::uses::{Use, is_code, use_of};
use asm_capabilities::Reach;
use asm_files::Program;
use asm_layout::ChunkKind;
use asm_values::Value;
use cheri_model::{CODE_BASE, INSTRUCTION_BYTES};
use std::alloc::{AllocError, Global};

/// Whether a value is a place that isn't in code.
fn is_beyond_code(program: &Program, value: Option<Value>) -> bool
    ensures { result ≡ is_beyond_code (program_parts program.now) value }
{
    let Some(Value::At(location)) = value else {
        return false;
    };
    match program.made.chunks.get(location.chunk as usize) {
        Some(chunk) => chunk.kind.rank() != ChunkKind::Code.rank(),
        None => true,
    }
}

/// Whether a statement reaches memory by PCC.
fn leaves_code(
    alloc: Global,
    scene: &ProgramScene,
    values: &[Option<Value>],
    file: usize,
    number: usize,
) -> Result<bool, AllocError>
    ensures { IfOk result (λ leaves. leaves ≡ leaves_code (scene_program scene.now)
        (scene_parts scene.now) values.now file number) }
{
    let Some(statement) = scene.program.statement_at(file, number) else {
        return Ok(false);
    };
    if !is_code(scene.program, file, number) {
        return Ok(false);
    }
    match use_of(statement) {
        Use::Entry => Ok(true),
        Use::Place => {
            let value = known_operand(alloc, scene, values, file, number)?;
            Ok(is_beyond_code(scene.program, value))
        }
        Use::Nothing => Ok(false),
    }
}

/// Whether one of so many statements of a file does.
fn file_leaves(
    alloc: Global,
    scene: &ProgramScene,
    values: &[Option<Value>],
    file: usize,
    count: usize,
) -> Result<bool, AllocError>
    ensures { IfOk result (λ leaves. leaves ≡ file_leaves (scene_program scene.now)
        (scene_parts scene.now) values.now file count) }
{
    let mut left = count;
    while left > 0 {
        left -= 1;
        let leaves = leaves_code(alloc, scene, values, file, left)?;
        if leaves {
            return Ok(true);
        }
    }
    Ok(false)
}

/// How many statements a file has.
fn count_in(program: &Program, file: usize) -> usize
    ensures { result ≡ count_in (program_parts program.now) file }
{
    match program.files.get(file) {
        Some(file) => file.statements.len(),
        None => 0,
    }
}

/// Whether a statement of one of so many files does.
fn some_leaves(
    alloc: Global,
    scene: &ProgramScene,
    values: &[Option<Value>],
    count: usize,
) -> Result<bool, AllocError>
    ensures { IfOk result (λ leaves. leaves ≡ some_leaves (scene_program scene.now)
        (scene_parts scene.now) values.now count) }
{
    let mut left = count;
    while left > 0 {
        left -= 1;
        let statements = count_in(scene.program, left);
        let leaves = file_leaves(alloc, scene, values, left, statements)?;
        if leaves {
            return Ok(true);
        }
    }
    Ok(false)
}

/// How many instructions there are up to an address.
pub(crate) fn instructions_to(end: u64) -> u64
    ensures { result ≡ instructions_to end }
{
    end.wrapping_sub(CODE_BASE) / INSTRUCTION_BYTES
}

/// So many instructions, and the guard and the exit where there is one.
fn with_exit(exits: bool, own: u32) -> u32
    ensures { result ≡ with_exit exits own }
{
    if exits && own > 0 {
        own.wrapping_add(2)
    } else {
        own
    }
}

/// What code reaches, of so many instructions; `exits` says whether the exit stands behind them.
/// Fails only when out of memory.
pub(crate) fn reach_of(
    alloc: Global,
    scene: &ProgramScene,
    values: &[Option<Value>],
    exits: bool,
    own: u64,
) -> Result<Reach, AllocError>
    ensures { IfOk result (λ reach. reach ≡ reach_of (scene_program scene.now)
        (scene_parts scene.now) values.now exits own) }
{
    if some_leaves(alloc, scene, values, scene.program.files.len())? {
        return Ok(Reach::CodeAndMemory);
    }
    Ok(Reach::Code(with_exit(exits, (own % (1 << 32)) as u32)))
}
