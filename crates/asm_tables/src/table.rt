//! The capability table.
#![tactic(auto, unfolding(crate::proofs::Unfold::tables))]

ghost use Rattle.std.specs.Prelude.{◌≡◌, IfOk, OnOk};
ghost use Rattle.asm_symbols.specs.Names.{names_of};
ghost use Rattle.asm_files.specs.Programs.{program_parts};
ghost use Rattle.asm_tables.specs.Tables.{
  count_in,
  entered,
  files_entered,
  statements_entered,
  table_of,
  table_parts,
};

use crate::entries::entry_asked;
use asm_files::Program;
use asm_symbols::Names;
use std::alloc::{AllocError, Global};

/// The symbols of the entries, in order, and the number of each symbol's entry, if it has one.
#[derive(Drop)]
pub struct Table {
    pub symbols: Vec<u32>,
    pub entries: Vec<Option<u32>>,
}

impl Table {
    /// One more entry, unless the symbol has one.
    fn enter(&mut self, symbol: u32) -> Result<(), AllocError>
        ensures { OnOk result (table_parts self.new ≡ entered symbol (table_parts self.old)) }
    {
        let Some(entry) = self.entries.get(symbol as usize).copied() else {
            return Ok(());
        };
        if let Some(_) = entry {
            return Ok(());
        }
        let Ok(number) = u32::try_from(self.symbols.len()) else {
            return Err(AllocError);
        };
        self.symbols.push(symbol)?;
        self.entries[symbol as usize] = Some(number);
        Ok(())
    }

    /// The entries that the statements of a file ask for, of so many.
    fn enter_file(
        &mut self,
        program: &Program,
        seen: &Names,
        file: usize,
        count: usize,
    ) -> Result<(), AllocError>
        ensures { OnOk result (table_parts self.new ≡ statements_entered
            (program_parts program.now) (names_of seen.now) file count (table_parts self.old)) }
    {
        for number in 0..count {
            if let Some(symbol) = entry_asked(program, seen, file, number) {
                self.enter(symbol)?;
            }
        }
        Ok(())
    }
}

/// How many statements a file has.
fn count_in(program: &Program, file: usize) -> usize
    ensures { result ≡ count_in (program_parts program.now) file }
{
    match program.files.get(file) {
        Some(file) => file.statements.len(),
        None => 0,
    }
}

/// The capability table: an entry for each symbol that code asks for, in the order in which they
/// are first asked for. Fails only when out of memory.
pub fn table_of(alloc: Global, program: &Program, seen: &Names) -> Result<Table, AllocError>
    ensures { IfOk result (λ table. table_parts table
        ≡ table_of (program_parts program.now) (names_of seen.now)) }
{
    let mut table = Table {
        symbols: Vec::new(alloc),
        entries: vec![in alloc; None; program.made.symbols.len()]?,
    };
    for file in 0..program.files.len() {
        table.enter_file(program, seen, file, count_in(program, file))?;
    }
    Ok(table)
}
