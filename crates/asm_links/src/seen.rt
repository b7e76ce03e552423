//! The symbols that all files see.
#![tactic(auto, unfolding(crate::proofs::Unfold::seen))]

ghost use Rattle.std.specs.Prelude.{◌≡◌, map};
ghost use Rattle.asm_symbols.specs.Names.{names_of};
ghost use Rattle.asm_files.specs.Faults.{GivesAll};
ghost use Rattle.asm_files.specs.Programs.{program_parts};
ghost use Rattle.asm_links.specs.Seen.{publish_fault, seen_of, twice_fault};

use asm_expressions::fault_at;
use asm_files::{AssemblyFault, Program, in_file};
use asm_symbols::{Names, PublishFault, publish};
use asm_tokens::{AsmFault, AsmFaultKind};
use std::alloc::{AllocError, Global};

/// The fault of the symbol of a number, whose name another file's has: at the name's token.
fn twice_fault(program: &Program, number: usize) -> AssemblyFault
    ensures { result ≡ twice_fault (program_parts program.now) number }
{
    let (file, token) = match program.made.symbols.get(number) {
        Some(symbol) => (symbol.file, symbol.token),
        None => (0, 0),
    };
    let tokens = program.tokens_in(file as usize);
    in_file(file, fault_at(tokens, AsmFaultKind::Twice, token))
}

/// Why the symbols can't be seen by all files, in the file where that is told.
fn publish_fault(program: &Program, fault: PublishFault) -> AssemblyFault
    ensures { result ≡ publish_fault (program_parts program.now) fault }
{
    match fault {
        PublishFault::Twice(number) => twice_fault(program, number),
        PublishFault::NoMemory => AssemblyFault {
            file: 0,
            fault: AsmFault::from(AllocError),
        },
    }
}

/// The numbers of the symbols that all files see, by their names. Fails with `Twice` at the first
/// symbol whose name one of another file has.
#[tactic(auto, using(crate::proofs::SeenLemmas::publish_refused), unfolding(crate::proofs::Unfold::published))]
pub fn seen_by_all<'a>(alloc: Global, program: &Program<'a>) -> Result<Names<'a>, AssemblyFault>
    ensures { GivesAll names_of result (seen_of (program_parts program.now)) }
{
    let symbols = program.made.symbols.as_slice();
    if symbols.len() > u32::MAX as usize {
        return Err(AssemblyFault::from(AllocError));
    }
    match publish(alloc, symbols, program.made.wanted.as_slice()) {
        Ok(names) => Ok(names),
        Err(fault) => Err(publish_fault(program, fault)),
    }
}
