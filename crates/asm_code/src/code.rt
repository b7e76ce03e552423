//! The instructions of a program, at their places.
#![tactic(auto, unfolding(crate::proofs::Unfold::code))]

ghost use Rattle.std.specs.Prelude.{◌≡◌};
ghost use Rattle.asm_expansions.specs.Expansions.{instrs_of};
ghost use Rattle.asm_files.specs.Faults.{GivesAll};
ghost use Rattle.asm_files.specs.Steps.{Leaves};
ghost use Rattle.asm_late.specs.Late.{late_parts};
ghost use Rattle.asm_statements.specs.Statements.{statement_parts};
ghost use Rattle.asm_code.specs.Code.{
  code_parts,
  instructions_of,
  instructions_with,
  operation_put,
};

use crate::standing::Site;
use asm_expansions::{Expansion, Operation};
use asm_files::AssemblyFault;
use asm_instructions::{Origin, expansion_for, overwrite, source_of};
use asm_statements::{Operand, Statement};
use cheri_model::Instr;
use std::alloc::Global;

/// The instructions of a program, and the origin of each.
#[derive(Drop)]
pub struct Code {
    pub instructions: Vec<Instr>,
    pub origins: Vec<Origin>,
}

impl Site<'_, '_> {
    /// The instructions of an operation with its operand, by the origins of instructions.
    fn expansion_with(
        self,
        alloc: Global,
        origins: &[Origin],
        statement: &Statement,
        operation: &Operation,
        operand: Operand,
    ) -> Result<Expansion, AssemblyFault>
        ensures { GivesAll instrs_of result (instructions_with (late_parts self.entry.late)
            origins.now
            self.entry.file self.entry.number (statement_parts statement.now) operation.now
            operand) }
    {
        let source = match source_of(*operation, operand) {
            Ok(source) => source,
            Err(kind) => return Err(self.fault(0, kind)),
        };
        let value = self.number_of(alloc, origins, statement, source)?;
        match expansion_for(operation, operand.relocation, value) {
            Ok(expansion) => Ok(expansion),
            Err(kind) => Err(self.fault(0, kind)),
        }
    }

    /// The instructions of a statement's operation, by the origins of instructions.
    fn expansion_of(
        self,
        alloc: Global,
        origins: &[Origin],
        statement: &Statement,
        operation: &Operation,
    ) -> Result<Expansion, AssemblyFault>
        ensures { GivesAll instrs_of result (instructions_of (late_parts self.entry.late)
            origins.now
            self.entry.file self.entry.number (statement_parts statement.now) operation.now) }
    {
        if let Some(operand) = statement.operands.get(0) {
            return self.expansion_with(alloc, origins, statement, operation, *operand);
        }
        match expansion_for(operation, None, 0) {
            Ok(expansion) => Ok(expansion),
            Err(kind) => Err(self.fault(0, kind)),
        }
    }
}

impl Code {
    /// Puts the instructions of a statement's operation at their places; one that lies behind the
    /// last place is judged and not put. Fails at the operand.
    pub fn put_operation(
        &mut self,
        alloc: Global,
        site: Site,
        statement: &Statement,
        operation: &Operation,
    ) -> Result<(), AssemblyFault>
        ensures { Leaves result (code_parts self.new) (operation_put (late_parts site.entry.late)
            site.entry.file site.entry.number (statement_parts statement.now) operation.now
            (code_parts self.old)) }
    {
        let origins = self.origins.as_slice();
        let expansion = site.expansion_of(alloc, origins, statement, operation)?;
        let mut instrs = Vec::new(alloc);
        expansion.write(&mut instrs)?;
        let index = site.index() as usize;
        overwrite(self.instructions.as_mut_slice(), index, instrs.as_slice());
        Ok(())
    }
}
