//! A program that is linked.
#![tactic(auto, unfolding(crate::proofs::Unfold::linked))]

ghost use Rattle.std.specs.Prelude.{◌≡◌, IfOk};
ghost use Rattle.asm_symbols.specs.Names.{names_of};
ghost use Rattle.asm_files.specs.Faults.{GivesAll};
ghost use Rattle.asm_files.specs.Programs.{program_parts};
ghost use Rattle.asm_late.specs.Linked.{linked_of, linked_parts, linked_with};

use crate::lengths::lengths_of;
use crate::reach::{instructions_to, reach_of};
use crate::scene::ProgramScene;
use asm_capabilities::Reach;
use asm_chains::known_values;
use asm_files::{AssemblyFault, Program};
use asm_layout::{Layout, lay_out};
use asm_links::{chunk_order, first_sizes, judge_sections, seen_by_all};
use asm_places::Places;
use asm_symbols::Names;
use asm_tables::{Table, table_of};
use asm_values::Value;
use std::alloc::{AllocError, Global};

/// What a program is once everything has its address.
#[derive(Drop)]
pub struct Linked<'a> {
    /// The numbers of the symbols that all files see, by their names.
    pub seen: Names<'a>,
    /// The capability table.
    pub table: Table,
    /// Where everything is.
    pub layout: Layout,
    /// The value of each symbol, if it has one.
    pub values: Vec<Option<Value>>,
    /// The statement, in its file, that says how many bytes a symbol has, if one does.
    pub sizes: Vec<Option<usize>>,
    /// How many bytes each symbol has; 0 of what is no data.
    pub lengths: Vec<u64>,
    /// What PCC and sentries reach.
    pub reach: Reach,
    /// How many instructions there are, but for the guard and the exit.
    pub instructions: u64,
}

/// What a program is, with the names that all files see.
fn link_seen<'a>(
    alloc: Global,
    program: &Program<'a>,
    exits: bool,
    seen: Names<'a>,
) -> Result<Linked<'a>, AllocError>
    ensures { IfOk result (λ linked. linked_parts linked
        ≡ linked_with (program_parts program.now) exits (names_of seen.entry)) }
{
    let table = table_of(alloc, program, &seen)?;
    let order = chunk_order(alloc, program)?;
    let chunks = program.made.chunks.as_slice();
    let Ok(entries) = u32::try_from(table.symbols.len()) else {
        return Err(AllocError);
    };
    let layout = lay_out(alloc, chunks, &order, entries)?;
    let sizes = first_sizes(alloc, program)?;
    let places = Places {
        chunks,
        addresses: layout.addresses.as_slice(),
    };
    let scene = ProgramScene {
        program,
        seen: &seen,
        places,
    };
    let values = known_values(alloc, &scene)?;
    let lengths = lengths_of(alloc, &scene, &values, &sizes)?;
    let instructions = instructions_to(layout.code_end);
    let reach = reach_of(alloc, &scene, &values, exits, instructions)?;
    Ok(Linked {
        seen,
        table,
        layout,
        values,
        sizes,
        lengths,
        reach,
        instructions,
    })
}

/// Gives everything in a program its address, and finds what symbols are worth then. `exits` says
/// whether the exit stands behind the code. Fails with `Twice` at the first symbol whose name one
/// of another file has, where both files want all to see it, and with `Section` of the first file
/// that gives a section another kind than one before.
pub fn link<'a>(
    alloc: Global,
    program: &Program<'a>,
    exits: bool,
) -> Result<Linked<'a>, AssemblyFault>
    ensures { GivesAll linked_parts result (linked_of (program_parts program.now) exits) }
{
    let seen = seen_by_all(alloc, program)?;
    judge_sections(alloc, program)?;
    Ok(link_seen(alloc, program, exits, seen)?)
}
