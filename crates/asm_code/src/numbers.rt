//! The number of an instruction's operand, by its source.
#![tactic(auto, unfolding(crate::proofs::Unfold::numbers))]

ghost use Rattle.std.specs.Prelude.{◌≡◌};
ghost use Rattle.asm_files.specs.Faults.{GivesAll};
ghost use Rattle.asm_late.specs.Late.{late_parts};
ghost use Rattle.asm_places.specs.Places.{places_parts};
ghost use Rattle.asm_statements.specs.Statements.{statement_parts};
ghost use Rattle.asm_code.specs.Numbers.{
  instruction_at,
  is_label_alone,
  judged_entry,
  labelled_instruction,
  named_distance,
  number_of,
  plain_number,
};

use crate::heads::distance_at;
use crate::standing::Site;
use asm_drafts::nodes_of;
use asm_expressions::{Node, NodeKind};
use asm_files::AssemblyFault;
use asm_instructions::{Origin, Source};
use asm_layout::ChunkKind;
use asm_places::Places;
use asm_statements::Statement;
use asm_tokens::AsmFaultKind;
use asm_values::Value;
use cheri_model::{CODE_BASE, INSTRUCTION_BYTES};
use std::alloc::Global;

/// A value that has to be a number. Fails with `Expression` for a place.
fn plain_number(value: Value) -> Result<u64, AsmFaultKind>
    ensures { result ≡ plain_number value }
{
    match value {
        Value::Number(number) => Ok(number),
        Value::At(_) => Err(AsmFaultKind::Expression),
    }
}

/// Whether an expression is a label alone.
fn is_label_alone(nodes: &[Node]) -> bool
    ensures { result ≡ is_label_alone nodes.now }
{
    let [node] = nodes else {
        return false;
    };
    match node.kind {
        NodeKind::Symbol | NodeKind::Local => true,
        _ => false,
    }
}

/// The number of the instruction at a place in code. Fails with `Expression` for another value.
fn instruction_at(places: Places, value: Value) -> Result<u64, AsmFaultKind>
    ensures { result ≡ instruction_at (places_parts places.entry) value }
{
    let Value::At(location) = value else {
        return Err(AsmFaultKind::Expression);
    };
    if places.kind_of(location.chunk).rank() != ChunkKind::Code.rank() {
        return Err(AsmFaultKind::Expression);
    }
    let address = places.address_of(value)?;
    Ok(address.wrapping_sub(CODE_BASE) / INSTRUCTION_BYTES)
}

/// The number of the instruction that a label names.
fn labelled_instruction(places: Places, nodes: &[Node], value: Value) -> Result<u64, AsmFaultKind>
    ensures { result ≡ labelled_instruction (places_parts places.entry) nodes.now value }
{
    if is_label_alone(nodes) {
        instruction_at(places, value)
    } else {
        Err(AsmFaultKind::Expression)
    }
}

impl Site<'_, '_> {
    /// The distance of the instruction that a statement's operand names, by the operand's value and
    /// the origins of instructions.
    fn named_distance(
        self,
        alloc: Global,
        origins: &[Origin],
        statement: &Statement,
        value: Value,
    ) -> Result<u64, AssemblyFault>
        ensures { GivesAll (λ distance. distance) result (named_distance (late_parts
            self.entry.late)
            origins.now self.entry.file self.entry.number (statement_parts statement.now) value) }
    {
        let places = self.late.places();
        let instruction = labelled_instruction(places, nodes_of(statement, 0), value);
        let index = self.number_or(0, instruction)?;
        let fault = self.fault(0, AsmFaultKind::Expression);
        distance_at(alloc, self.late, origins, fault, index)
    }

    /// The distance to an entry of the capability table, of which there has to be a capability.
    fn judged_entry(self, alloc: Global) -> Result<u64, AssemblyFault>
        ensures { GivesAll (λ distance. distance) result
            (judged_entry (late_parts self.entry.late) self.entry.file self.entry.number) }
    {
        let entry = self.late.entry_of(self.file, self.number, 0)?;
        let value = self.late.symbol_value(alloc, entry.symbol)?;
        match self.late.objects().capability_of(value) {
            Ok(_) => self.entry_distance(),
            Err(kind) => Err(self.fault(0, kind)),
        }
    }

    /// The number of a statement's operand, by its source and the origins of instructions.
    pub(crate) fn number_of(
        self,
        alloc: Global,
        origins: &[Origin],
        statement: &Statement,
        source: Source,
    ) -> Result<u64, AssemblyFault>
        ensures { GivesAll (λ number. number) result (number_of (late_parts self.entry.late)
            origins.now self.entry.file self.entry.number (statement_parts statement.now) source) }
    {
        match source {
            Source::Constant => Ok(self.stand().value),
            Source::Number => {
                let value = self.value(alloc, 0, 0, 0)?;
                self.number_or(0, plain_number(value))
            }
            Source::Address => {
                let value = self.value(alloc, 0, 0, 0)?;
                self.number_or(0, self.late.places().address_of(value))
            }
            Source::Distance => self.place_distance(alloc),
            Source::Entry => self.judged_entry(alloc),
            Source::Named => {
                let value = self.value(alloc, 0, 0, 0)?;
                self.named_distance(alloc, origins, statement, value)
            }
            Source::Target => {
                let value = self.value(alloc, 0, 0, 0)?;
                let count = self.late.linked.instructions;
                self.number_or(0, self.late.places().target_of(value, count))
            }
        }
    }
}
