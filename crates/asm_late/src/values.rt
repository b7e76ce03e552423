//! Faults of values, in their files.
#![tactic(auto, unfolding(crate::proofs::Unfold::values))]

ghost use Rattle.std.specs.Prelude.{◌≡◌, ◌+◌, ◌%◌, ◌^◌, Result};
ghost use Rattle.asm_values.specs.declared.values.Value.{Value};
ghost use Rattle.asm_chains.specs.declared.scene.LateFault.{LateFault};
ghost use Rattle.asm_files.specs.Faults.{GivesAll};
ghost use Rattle.asm_files.specs.Programs.{program_parts};
ghost use Rattle.asm_chains.specs.Faults.{GivesLate};
ghost use Rattle.asm_late.specs.Values.{in_files, operand_fault, token_fault};

use asm_chains::LateFault;
use asm_drafts::first_of;
use asm_expressions::fault_at;
use asm_files::{AssemblyFault, Program};
use asm_tokens::AsmFaultKind;
use asm_values::Value;
use std::alloc::AllocError;

/// The number by which faults name a file.
fn file_number(file: usize) -> u32
    ensures { result ≡ (file + 1) % 2 ^ 32 }
{
    (file.wrapping_add(1) % (1 << 32)) as u32
}

/// A fault at a token of a file.
pub(crate) fn token_fault(
    program: &Program,
    file: usize,
    kind: AsmFaultKind,
    at: usize,
) -> AssemblyFault
    ensures { result ≡ token_fault (program_parts program.now) file kind at }
{
    AssemblyFault {
        file: file_number(file),
        fault: fault_at(program.tokens_in(file), kind, at),
    }
}

/// A value, or its fault in its file; out of memory that has no place.
pub(crate) fn in_files(
    program: &Program,
    outcome: Result<Value, LateFault>,
) -> Result<Value, AssemblyFault>
    ensures { (meaning : Result Value LateFault) → GivesLate outcome meaning
        → GivesAll (λ value. value) result (in_files (program_parts program.now) meaning) }
{
    match outcome {
        Ok(value) => Ok(value),
        Err(fault) => match fault.kind {
            AsmFaultKind::NoMemory => Err(AssemblyFault::from(AllocError)),
            kind => Err(token_fault(program, fault.file, kind, fault.at)),
        },
    }
}

/// A fault at the first token of an operand.
pub(crate) fn operand_fault(
    program: &Program,
    file: usize,
    statement: usize,
    operand: usize,
    kind: AsmFaultKind,
) -> AssemblyFault
    ensures { result
        ≡ operand_fault (program_parts program.now) file statement operand kind }
{
    let first = match program.statement_at(file, statement) {
        Some(statement) => first_of(statement, operand),
        None => 0,
    };
    token_fault(program, file, kind, first)
}
