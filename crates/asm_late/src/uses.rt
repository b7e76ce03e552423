//! What instructions use beside their operands' values.
#![tactic(auto, unfolding(crate::proofs::Unfold::uses))]

ghost use Rattle.std.specs.Prelude.{◌≡◌};
ghost use Rattle.asm_statements.specs.Statements.{statement_parts};
ghost use Rattle.asm_files.specs.Programs.{program_parts, stand_in};
ghost use Rattle.asm_tables.specs.Entries.{is_code};
ghost use Rattle.asm_late.specs.Reach.{
  use_of,
  use_of_operand,
  use_of_operation,
  use_of_relocation,
};

use asm_expansions::Operation;
use asm_files::Program;
use asm_layout::ChunkKind;
use asm_names::Relocation;
use asm_statements::{Body, Operand, Role, Statement};

/// What an instruction uses through PCC.
#[derive(Clone, Copy, Debug, PartialEq, Eq)]
pub(crate) enum Use {
    /// An entry of the capability table.
    Entry,
    /// A place, as a capability.
    Place,
    Nothing,
}

/// What an operator of relocation asks for.
fn use_of_relocation(relocation: Option<Relocation>) -> Use
    ensures { result ≡ use_of_relocation relocation }
{
    match relocation {
        Some(Relocation::CaptabPcrelHi) => Use::Entry,
        Some(Relocation::PcrelHi) => Use::Place,
        _ => Use::Nothing,
    }
}

/// What an operation asks for, which reaches a symbol.
fn use_of_operation(operation: Option<Operation>) -> Use
    ensures { result ≡ use_of_operation operation }
{
    match operation {
        Some(Operation::Clgc(_)) => Use::Entry,
        Some(Operation::Cllc(_)) => Use::Place,
        Some(Operation::LoadSymbol(_, _)) => Use::Place,
        _ => Use::Nothing,
    }
}

/// What an instruction asks for by its operand.
fn use_of_operand(operation: Option<Operation>, operand: Option<Operand>) -> Use
    ensures { result ≡ use_of_operand operation operand }
{
    let Some(operand) = operand else {
        return Use::Nothing;
    };
    match operand.role {
        Role::Immediate => use_of_relocation(operand.relocation),
        Role::Symbol => use_of_operation(operation),
        _ => Use::Nothing,
    }
}

/// What a statement asks for.
pub(crate) fn use_of(statement: &Statement) -> Use
    ensures { result ≡ use_of (statement_parts statement.now) }
{
    match statement.body {
        Body::Instruction(_, operation) => use_of_operand(
            operation,
            statement.operands.get(0).copied(),
        ),
        _ => Use::Nothing,
    }
}

/// Whether a statement is in code.
pub(crate) fn is_code(program: &Program, file: usize, number: usize) -> bool
    ensures { result ≡ is_code (program_parts program.now)
        (stand_in (program_parts program.now) file number).chunk }
{
    let chunk = program.stand_in(file, number).chunk;
    match program.made.chunks.get(chunk as usize) {
        Some(chunk) => chunk.kind.rank() == ChunkKind::Code.rank(),
        None => false,
    }
}
