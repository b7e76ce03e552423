//! Instructions with the upper part of a distance, which others name for its lower part.
#![tactic(auto, unfolding(crate::proofs::Unfold::heads))]

ghost use Rattle.std.specs.Prelude.{◌≡◌};
ghost use Rattle.asm_files.specs.Faults.{GivesAll};
ghost use Rattle.asm_late.specs.Late.{late_parts};
ghost use Rattle.asm_places.specs.Places.{places_parts};
ghost use Rattle.asm_code.specs.Heads.{
  distance_at,
  distance_or,
  entry_address,
  entry_distance,
  operation_of,
  place_address,
  place_distance,
  source_at,
};

use crate::standing::Site;
use asm_expansions::Operation;
use asm_files::AssemblyFault;
use asm_instructions::{Origin, Source, source_of};
use asm_late::Late;
use asm_places::Places;
use asm_statements::Body;
use asm_tokens::AsmFaultKind;
use asm_values::Value;
use cheri_model::{GRANULE_BYTES, RAM_BASE};
use std::alloc::Global;

/// The address of a place. Fails with `Expression` for a number, and with `Section` where nothing
/// is kept of the place's chunk.
fn place_address(places: Places, value: Value) -> Result<u64, AsmFaultKind>
    ensures { result ≡ place_address (places_parts places.entry) value }
{
    match value {
        Value::Number(_) => Err(AsmFaultKind::Expression),
        Value::At(_) => places.address_of(value),
    }
}

/// The address of an entry of the capability table, modulo 2^64.
pub fn entry_address(entry: usize) -> u64
    ensures { result ≡ entry_address entry }
{
    ((u128::from(RAM_BASE) + u128::from(GRANULE_BYTES) * entry as u128) % (1 << 64)) as u64
}

/// The operation of a statement, if it is an instruction.
pub(crate) fn operation_of(body: Body) -> Option<Operation>
    ensures { result ≡ operation_of body }
{
    match body {
        Body::Instruction(_, operation) => operation,
        _ => None,
    }
}

impl Site<'_, '_> {
    /// The distance from a statement to the place that its operand is.
    pub(crate) fn place_distance(self, alloc: Global) -> Result<u64, AssemblyFault>
        ensures { GivesAll (λ distance. distance) result
            (place_distance (late_parts self.entry.late) self.entry.file self.entry.number) }
    {
        let value = self.value(alloc, 0, 0, 0)?;
        let address = self.number_or(0, place_address(self.late.places(), value))?;
        Ok(address.wrapping_sub(self.address(0, 0)))
    }

    /// The distance from a statement to the entry of the capability table that its operand names.
    pub(crate) fn entry_distance(self) -> Result<u64, AssemblyFault>
        ensures { GivesAll (λ distance. distance) result
            (entry_distance (late_parts self.entry.late) self.entry.file self.entry.number) }
    {
        let entry = self.late.entry_of(self.file, self.number, 0)?;
        Ok(entry_address(entry.entry as usize).wrapping_sub(self.address(0, 0)))
    }

    /// How the value of a statement's operand is found, if it is an instruction with one.
    fn source(self) -> Option<Source>
        ensures { result ≡ source_at (late_parts self.entry.late) self.entry.file
            self.entry.number }
    {
        let statement = self.late.program.statement_at(self.file, self.number)?;
        let operation = operation_of(statement.body)?;
        let operand = statement.operands.get(0)?;
        match source_of(operation, *operand) {
            Ok(source) => Some(source),
            Err(_) => None,
        }
    }

    /// The distance of a statement with the upper part of one. Fails with this fault where the
    /// statement is another one.
    fn distance_or(self, alloc: Global, fault: AssemblyFault) -> Result<u64, AssemblyFault>
        ensures { GivesAll (λ distance. distance) result
            (distance_or (late_parts self.entry.late) fault self.entry.file self.entry.number) }
    {
        match self.source() {
            Some(Source::Distance) => self.place_distance(alloc),
            Some(Source::Entry) => self.entry_distance(),
            _ => Err(fault),
        }
    }
}

/// The same of the statement whose first instruction is the one of a number, by the origins of
/// instructions.
pub(crate) fn distance_at(
    alloc: Global,
    late: Late,
    origins: &[Origin],
    fault: AssemblyFault,
    index: u64,
) -> Result<u64, AssemblyFault>
    ensures { GivesAll (λ distance. distance) result
        (distance_at (late_parts late.entry) origins.now fault index) }
{
    let Some(origin) = origins.get(index as usize) else {
        return Err(fault);
    };
    let Some(number) = origin.statement else {
        return Err(fault);
    };
    let site = Site {
        late,
        file: origin.file,
        number,
    };
    if site.index() != index {
        return Err(fault);
    }
    site.distance_or(alloc, fault)
}
