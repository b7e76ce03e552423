//! The symbols of the capability table's entries.
#![tactic(auto, unfolding(crate::proofs::Unfold::entries))]

ghost use Rattle.std.specs.Prelude.{◌≡◌};
ghost use Rattle.asm_symbols.specs.Names.{names_of};
ghost use Rattle.asm_statements.specs.Statements.{statement_parts};
ghost use Rattle.asm_files.specs.Programs.{program_parts};
ghost use Rattle.asm_tables.specs.Entries.{
  asks_entry,
  asks_in,
  entry_asked,
  entry_symbol,
  is_code,
};

use crate::names::{behind, named_by, nodes_in};
use asm_expansions::Operation;
use asm_files::Program;
use asm_layout::ChunkKind;
use asm_names::Relocation;
use asm_statements::{Body, Operand, Role, Statement};
use asm_symbols::Names;
use asm_tokens::AsmFaultKind;

/// The symbol whose capability an operand asks for: a name alone, of a place or of a symbol that
/// stands for one. Fails with `Expression` where it is more than that, or comes back to itself, and
/// with `Symbol` where there is none.
pub fn entry_symbol(
    program: &Program,
    seen: &Names,
    file: usize,
    statement: usize,
    operand: usize,
) -> Result<u32, AsmFaultKind>
    ensures { result ≡ entry_symbol (program_parts program.now) (names_of seen.now) file statement
        operand }
{
    let nodes = nodes_in(program, file, statement, operand);
    let symbol = named_by(program, seen, file, nodes)?;
    behind(program, seen, symbol, program.made.symbols.len())
}

/// Whether an instruction's operand asks for an entry of the table.
fn asks_entry(operation: Option<Operation>, operand: Operand) -> bool
    ensures { result ≡ asks_entry operation operand }
{
    match operand.role {
        Role::Immediate => matches!(operand.relocation, Some(Relocation::CaptabPcrelHi)),
        Role::Symbol => matches!(operation, Some(Operation::Clgc(_))),
        _ => false,
    }
}

/// Whether a chunk is code.
fn is_code(program: &Program, chunk: u32) -> bool
    ensures { result ≡ is_code (program_parts program.now) chunk }
{
    match program.made.chunks.get(chunk as usize) {
        Some(chunk) => chunk.kind.rank() == ChunkKind::Code.rank(),
        None => false,
    }
}

/// Whether a statement is an instruction that asks for an entry of the table.
fn asks_in(statement: &Statement) -> bool
    ensures { result ≡ asks_in (statement_parts statement.now) }
{
    let Body::Instruction(_, operation) = statement.body else {
        return false;
    };
    match statement.operands.get(0) {
        Some(operand) => asks_entry(operation, *operand),
        None => false,
    }
}

/// The symbol of the entry that a statement of a file asks for, if it does and there is one.
pub(crate) fn entry_asked(
    program: &Program,
    seen: &Names,
    file: usize,
    number: usize,
) -> Option<u32>
    ensures { result ≡ entry_asked (program_parts program.now) (names_of seen.now) file number }
{
    let statement = program.statement_at(file, number)?;
    if !asks_in(statement) {
        return None;
    }
    if !is_code(program, program.stand_in(file, number).chunk) {
        return None;
    }
    match entry_symbol(program, seen, file, number, 0) {
        Ok(symbol) => Some(symbol),
        Err(_) => None,
    }
}
