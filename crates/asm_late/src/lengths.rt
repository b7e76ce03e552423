//! The bytes of symbols.
#![tactic(auto, unfolding(crate::proofs::Unfold::lengths))]

ghost use Rattle.std.specs.Prelude.{◌≡◌, IfOk, None, slice_index_or};
ghost use Rattle.asm_symbols.specs.Definitions.{definition_parts};
ghost use Rattle.asm_late.specs.Scene.{scene_parts, scene_program};
ghost use Rattle.asm_late.specs.Lengths.{
  known_operand,
  length_of,
  lengths_from,
  most_by,
  rest_by,
  said_or_rest,
  size_in,
};

use crate::scene::{ProgramScene, setting_of};
use asm_chains::value_if_known;
use asm_layout::{Chunk, ChunkKind};
use asm_symbols::{Definition, Meaning};
use asm_tables::nodes_in;
use asm_tokens::AsmFaultKind;
use asm_values::Value;
use std::alloc::{AllocError, Global};

/// How many bytes the chunk of a symbol has from there on; `None` where it is no data.
fn rest_by(chunks: &[Chunk], meaning: Meaning) -> Option<u64>
    ensures { result ≡ rest_by chunks.now meaning }
{
    let Meaning::Place(chunk, offset) = meaning else {
        return None;
    };
    let chunk = chunks.get(chunk as usize)?;
    match chunk.kind {
        ChunkKind::Code | ChunkKind::Dropped => None,
        _ => Some(u64::from(chunk.size.saturating_sub(offset))),
    }
}

/// The most bytes that a `.size` may say of a symbol: of what is no data it says nothing, but is a
/// number with a sign.
pub(crate) fn most_of(chunks: &[Chunk], meaning: Meaning) -> u64
    ensures { result ≡ most_by (rest_by chunks.now meaning) }
{
    match rest_by(chunks, meaning) {
        Some(rest) => rest,
        None => i64::MAX as u64,
    }
}

/// A value that is a number from 0 to the most.
pub(crate) fn size_in(most: u64, value: Value) -> Result<u64, AsmFaultKind>
    ensures { result ≡ size_in most value }
{
    match value {
        Value::Number(number) if number <= most => Ok(number),
        Value::Number(_) => Err(AsmFaultKind::Range),
        Value::At(_) => Err(AsmFaultKind::Expression),
    }
}

/// The bytes that a `.size` says, unless it says none, or what it can't.
fn said_or_rest(rest: u64, value: Option<Value>) -> u64
    ensures { result ≡ said_or_rest rest value }
{
    let Some(value) = value else {
        return rest;
    };
    match size_in(rest, value) {
        Ok(0) => rest,
        Ok(size) => size,
        Err(_) => rest,
    }
}

/// The value of a statement's first operand, if it has one.
pub(crate) fn known_operand(
    alloc: Global,
    scene: &ProgramScene,
    values: &[Option<Value>],
    file: usize,
    statement: usize,
) -> Result<Option<Value>, AllocError>
    ensures { IfOk result (λ value. value ≡ known_operand (scene_program scene.now)
        (scene_parts scene.now) values.now file statement) }
{
    let setting = setting_of(scene.program, file, statement);
    let nodes = nodes_in(scene.program, file, statement, 0);
    value_if_known(alloc, scene, values, setting, nodes)
}

/// How many bytes a symbol has. `size` is the statement that says it.
fn length_of(
    alloc: Global,
    scene: &ProgramScene,
    values: &[Option<Value>],
    size: Option<usize>,
    symbol: &Definition,
) -> Result<u64, AllocError>
    ensures { IfOk result (λ bytes. bytes ≡ length_of (scene_program scene.now)
        (scene_parts scene.now) values.now size (definition_parts symbol.now)) }
{
    if let Some(bytes) = symbol.bytes {
        return Ok(u64::from(bytes));
    }
    let Some(rest) = rest_by(scene.program.made.chunks.as_slice(), symbol.meaning) else {
        return Ok(0);
    };
    let Some(statement) = size else {
        return Ok(rest);
    };
    let value = known_operand(alloc, scene, values, symbol.file as usize, statement)?;
    Ok(said_or_rest(rest, value))
}

/// The statement of a number, if there is one.
fn size_at(sizes: &[Option<usize>], number: usize) -> Option<usize>
    ensures { result ≡ slice_index_or sizes.now number None }
{
    match sizes.get(number) {
        Some(size) => *size,
        None => None,
    }
}

/// How many bytes each symbol has. `sizes` are the statements that say it. Fails only when out of
/// memory.
pub(crate) fn lengths_of(
    alloc: Global,
    scene: &ProgramScene,
    values: &[Option<Value>],
    sizes: &[Option<usize>],
) -> Result<Vec<u64>, AllocError>
    ensures { IfOk result (λ lengths. lengths.items
        ≡ lengths_from (scene_program scene.now)
        (scene_parts scene.now) values.now sizes.now 0
        (scene_program scene.now).made.symbols) }
{
    let symbols = scene.program.made.symbols.as_slice();
    let mut lengths = Vec::new(alloc);
    for (number, symbol) in symbols.iter().enumerate() {
        let size = size_at(sizes, number);
        let bytes = length_of(alloc, scene, values, size, symbol)?;
        lengths.push(bytes)?;
    }
    Ok(lengths)
}
