//! The image of a program: its sizes, its memory, its listing.
#![tactic(auto, unfolding(crate::proofs::Unfold::images))]

ghost use Rattle.std.specs.Prelude.{◌≡◌, ◌<◌, ◌≤◌, ◌^◌, IfOk, string_bytes};
ghost use Rattle.canonical.specs.Canon.{canon};
ghost use Rattle.asm_files.specs.Faults.{GivesAll};
ghost use Rattle.asm_pictures.specs.Image.{
  exit_address,
  image_made,
  picture_parts,
  program_with,
  ram_of,
  sizes_judged,
  total,
  whole,
};

use asm_files::{AssemblyFault, RamRequest};
use asm_instructions::push_exit;
use asm_starts::{asked_ram, default_ram, taken};
use asm_tokens::{AsmFault, AsmFaultKind, Place};
use canonical::write_listing;
use cheri_model::{
    CODE_BASE, HartImage, INSTRUCTION_BYTES, Image, Instr, MAX_INSTRUCTIONS, MAX_RAM_BYTES, Value,
};
use listings::LISTING_LIMIT;
use std::alloc::Global;

/// A fault of the whole, which is at no place.
pub fn whole(kind: AsmFaultKind) -> AssemblyFault
    ensures { result ≡ whole kind }
{
    let place = Place { line: 0, column: 0 };
    AssemblyFault {
        file: 0,
        fault: AsmFault { kind, place },
    }
}

/// How many instructions a program has, with the guard and the exit.
fn total(instructions: u64, exit: bool) -> u64
    requires { instructions < 2 ^ 63 }
    ensures { result ≡ total instructions exit }
{
    if exit { instructions + 2 } else { instructions }
}

/// Judges the sizes of a program: so many instructions, guard and exit aside, and memory that is
/// taken up to an address. Fails with `Size`.
pub fn judge_sizes(instructions: u64, exit: bool, memory_end: u64) -> Result<(), AssemblyFault>
    ensures { result ≡ sizes_judged instructions exit memory_end }
{
    let most = MAX_INSTRUCTIONS as u64;
    if instructions == 0 || instructions > most || total(instructions, exit) > most {
        return Err(whole(AsmFaultKind::Size));
    }
    if taken(memory_end) > u64::from(MAX_RAM_BYTES) {
        return Err(whole(AsmFaultKind::Size));
    }
    Ok(())
}

/// The address of the exit, behind so many instructions and the guard.
pub fn exit_address(instructions: u64, exit: bool) -> Option<u64>
    requires { instructions ≤ MAX_INSTRUCTIONS }
    ensures { result ≡ exit_address instructions exit }
{
    if exit {
        Some(CODE_BASE + INSTRUCTION_BYTES * (instructions + 1))
    } else {
        None
    }
}

/// The size of RAM that is taken up to an address. Fails with `Size` where RAM can't have it, and
/// with `Hart`, at a request that says it, where the request can't be done.
pub fn ram_of(request: Option<RamRequest>, memory_end: u64) -> Result<u32, AssemblyFault>
    ensures { result ≡ ram_of request memory_end }
{
    let Some(request) = request else {
        return default_ram(memory_end).ok_or(whole(AsmFaultKind::Size));
    };
    match asked_ram(request.size, memory_end) {
        Some(size) => Ok(size),
        None => Err(AssemblyFault {
            file: request.file,
            fault: AsmFault {
                kind: AsmFaultKind::Hart,
                place: request.place,
            },
        }),
    }
}

/// An image, and its canonical listing.
#[derive(Drop)]
pub struct Picture {
    pub image: Image,
    pub listing: String,
}

/// The image of these parts, and its canonical listing. Fails with `Size` where there is no such
/// image, or where its listing is too long.
pub fn image_of(
    alloc: Global,
    program: Vec<Instr>,
    ram: u32,
    granules: Vec<(u64, Value)>,
    harts: Vec<HartImage>,
) -> Result<Picture, AssemblyFault>
    ensures meant { GivesAll picture_parts result
        (image_made program.items ram granules.items harts.items) }
    ensures listing { IfOk result (λ made. string_bytes made.listing ≡ canon made.image) }
{
    let Some(image) = Image::new(program, ram, granules, harts) else {
        return Err(whole(AsmFaultKind::Size));
    };
    let listing = write_listing(alloc, &image)?;
    if listing.len() > LISTING_LIMIT {
        return Err(whole(AsmFaultKind::Size));
    }
    Ok(Picture { image, listing })
}

/// The program with the guard and the exit, if they are to follow. Fails only when out of memory.
pub fn with_exit(program: Vec<Instr>, exit: bool) -> Result<Vec<Instr>, AssemblyFault>
    ensures { GivesAll (λ code. code.items) result (Ok (program_with program.items exit)) }
{
    let mut program = program;
    if exit {
        push_exit(&mut program)?;
    }
    Ok(program)
}
