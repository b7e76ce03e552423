//! The capability table in memory.
#![tactic(auto, unfolding(crate::proofs::Unfold::table))]

ghost use Rattle.std.specs.Prelude.{◌≡◌, map};
ghost use Rattle.asm_files.specs.Steps.{Leaves, each_from};
ghost use Rattle.asm_late.specs.Late.{late_parts};
ghost use Rattle.asm_data.specs.Table.{entry_stored};

use asm_code::entry_address;
use asm_files::AssemblyFault;
use asm_late::Late;
use asm_memory::put_capability;
use asm_tokens::{AsmFault, Place};
use std::alloc::Global;
use tagged_mem::Ram;

/// Stores an entry, the capability of a symbol.
fn store_entry(
    alloc: Global,
    late: Late,
    entry: usize,
    symbol: u32,
    ram: &mut Ram,
) -> Result<(), AssemblyFault>
    ensures { Leaves result ram.new (entry_stored (late_parts late.entry) entry symbol ram.old) }
{
    let value = late.symbol_value(alloc, symbol)?;
    let capability = match late.objects().capability_of(value) {
        Ok(capability) => capability,
        Err(kind) => {
            let place = Place { line: 0, column: 0 };
            return Err(AssemblyFault {
                file: 0,
                fault: AsmFault { kind, place },
            });
        }
    };
    put_capability(ram, entry_address(entry), capability);
    Ok(())
}

/// Stores the entries of the capability table.
pub(crate) fn store_table(
    alloc: Global,
    late: Late,
    table: &[u32],
    ram: &mut Ram,
) -> Result<(), AssemblyFault>
    ensures { Leaves result ram.new (each_from (entry_stored (late_parts late.entry)) 0 table.now
        ram.old) }
{
    for (entry, symbol) in table.iter().enumerate() {
        store_entry(alloc, late, entry, *symbol, ram)?;
    }
    Ok(())
}
