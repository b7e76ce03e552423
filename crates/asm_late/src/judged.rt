//! Statements that set symbols, and that say how many bytes they have.
#![tactic(auto, unfolding(crate::proofs::Unfold::judged))]

ghost use Rattle.std.specs.Prelude.{◌≡◌};
ghost use Rattle.asm_files.specs.Faults.{GivesAll};
ghost use Rattle.asm_files.specs.Programs.{program_parts};
ghost use Rattle.asm_late.specs.Late.{
  late_parts,
  own_symbol,
  set_judged,
  size_by,
  size_judged,
  size_value,
};

use crate::late::Late;
use crate::lengths::{most_of, size_in};
use crate::scene::setting_of;
use crate::values::token_fault;
use asm_expressions::text_at;
use asm_files::AssemblyFault;
use asm_statements::Body;
use asm_tokens::AsmFaultKind;
use std::alloc::Global;

impl Late<'_, '_> {
    /// The symbol of a file that a token names.
    fn own_symbol(self, file: usize, at: usize) -> Option<u32>
        ensures { result ≡ own_symbol (late_parts self.entry) file at }
    {
        let name = text_at(self.program.tokens_in(file), at);
        self.program.made.own.get(file)?.find(name)
    }

    /// Judges a `.set`: its symbol has a value. Fails as `symbol_value`.
    pub fn judge_set(
        self,
        alloc: Global,
        file: usize,
        statement: usize,
    ) -> Result<(), AssemblyFault>
        ensures { GivesAll (λ done. done) result
            (set_judged (late_parts self.entry) file statement) }
    {
        let Some(read) = self.program.statement_at(file, statement) else {
            return Ok(());
        };
        let Body::Set(at) = read.body else {
            return Ok(());
        };
        let Some(symbol) = self.own_symbol(file, at) else {
            return Ok(());
        };
        let _ = self.symbol_value(alloc, symbol)?;
        Ok(())
    }

    /// Judges the value of a `.size`: a number from 0 to the most.
    fn judge_size_value(
        self,
        alloc: Global,
        file: usize,
        statement: usize,
        most: u64,
    ) -> Result<(), AssemblyFault>
        ensures { GivesAll (λ done. done) result
            (size_value (late_parts self.entry) file statement most) }
    {
        let dot = setting_of(self.program, file, statement).dot;
        let value = self.operand_value(alloc, file, statement, 0, dot)?;
        match size_in(most, value) {
            Ok(_) => Ok(()),
            Err(kind) => Err(self.fault_of(file, statement, 0, kind)),
        }
    }

    /// Judges a `.size`, whose symbol a token names.
    fn judge_size_of(
        self,
        alloc: Global,
        file: usize,
        statement: usize,
        at: usize,
    ) -> Result<(), AssemblyFault>
        ensures { GivesAll (λ done. done) result (size_by (late_parts self.entry) file statement at
            (own_symbol (late_parts self.entry) file at)) }
    {
        let Some(symbol) = self.own_symbol(file, at) else {
            return Err(token_fault(self.program, file, AsmFaultKind::Symbol, at));
        };
        let symbol = symbol as usize;
        match self.linked.sizes.get(symbol).copied() {
            Some(Some(first)) if first == statement => {}
            _ => return Err(token_fault(self.program, file, AsmFaultKind::Twice, at)),
        }
        let most = match self.program.made.symbols.get(symbol) {
            Some(definition) => { most_of(self.program.made.chunks.as_slice(), definition.meaning) }
            None => 0,
        };
        self.judge_size_value(alloc, file, statement, most)
    }

    /// Judges a `.size`. Fails with `Symbol` where its file has no such symbol, with `Twice` where
    /// one before said it, with `Expression` where it is no number, and with `Range` where it isn't
    /// from 0 to what the symbol's chunk has from there on; of what is no data, to 2^63 - 1.
    pub fn judge_size(
        self,
        alloc: Global,
        file: usize,
        statement: usize,
    ) -> Result<(), AssemblyFault>
        ensures { GivesAll (λ done. done) result
            (size_judged (late_parts self.entry) file statement) }
    {
        let Some(read) = self.program.statement_at(file, statement) else {
            return Ok(());
        };
        match read.body {
            Body::Size(at) => self.judge_size_of(alloc, file, statement, at),
            _ => Ok(()),
        }
    }
}
