//! From files to the image that they mean.
#![tactic(auto, unfolding(crate::proofs::Unfold::whole))]

ghost use Rattle.std.specs.Prelude.{◌≡◌, ◌<◌, ◌^◌, IfOk, length, map, string_bytes};
ghost use Rattle.canonical.specs.Canon.{canon};
ghost use Rattle.asm_files.specs.Faults.{GivesAll};
ghost use Rattle.asm_files.specs.Programs.{program_parts, text_of};
ghost use Rattle.asm_files.specs.Requests.{hart_request_parts};
ghost use Rattle.asm_late.specs.Late.{late_parts};
ghost use Rattle.asm_data.specs.Contents.{contents_parts};
ghost use Rattle.asm_mapping.specs.Lines.{line_parts, text_now};
ghost use Rattle.asm_mapping.specs.Mapping.{mapped_parts};
ghost use Rattle.asm_starts.specs.Starts.{note_parts};
ghost use Rattle.asm_starts.specs.Values.{scene_parts};
ghost use Rattle.asm_pictures.specs.Asked.{asked_or, harts_parts};
ghost use Rattle.asm_image.specs.Whole.{
  assembled_parts,
  assembly_meaning,
  drawn,
  drawn_in,
  drawn_parts,
  linked_drawn,
  map_of,
  mapped_of,
  program_meaning,
  ram_for,
  scene_of,
};

use asm_data::{Contents, read_contents};
use asm_files::{AssemblyFault, HartRequest, Program, read_program};
use asm_instructions::Origin;
use asm_late::{Late, Linked, link};
use asm_mapping::{MapLine, Mapped};
use asm_memory::listed_granules;
use asm_pictures::{
    Harts, Opened, asked_harts, exit_address, exits_in, image_of, judge_sizes, open_harts, ram_of,
    with_exit,
};
use asm_starts::{HartNote, Known, Scene};
use cheri_model::{HartImage, Image};
use std::alloc::{AllocError, Global};

/// What files mean.
#[derive(Drop)]
pub struct Assembled<'a> {
    /// The files as one program, and what everything in it is worth.
    pub program: Program<'a>,
    pub linked: Linked<'a>,
    /// The image, and its canonical listing.
    pub image: Image,
    pub listing: String,
    /// Where each instruction comes from, guard and exit aside.
    pub origins: Vec<Origin>,
    /// Whether the guard and the exit follow.
    pub exit: bool,
    /// What a map tells of each hart.
    pub harts: Vec<HartNote<'a>>,
}

/// An image with its listing, what a map tells of its harts, and where each instruction comes from.
#[derive(Drop)]
struct Drawn<'a> {
    image: Image,
    listing: String,
    harts: Vec<HartNote<'a>>,
    origins: Vec<Origin>,
}

/// The requests of harts: those that are asked for, or else those of files.
fn requests_of<'p, 'a>(
    program: &'p Program<'a>,
    asked: &'p Option<Vec<HartRequest<'a>>>,
) -> &'p [HartRequest<'a>]
    ensures { map hart_request_parts result.now
        ≡ asked_or (map hart_request_parts program.now.requests.harts.items) asked.now }
{
    match asked {
        Some(asked) => asked.as_slice(),
        None => program.requests.harts.as_slice(),
    }
}

/// A program that is laid out, as harts see it. Fails only when out of memory.
fn scene_of<'p>(late: Late<'p, '_>, exit: Option<u64>) -> Result<Scene<'p>, AllocError>
    ensures { IfOk result (λ scene. scene_parts scene ≡ scene_of (late_parts late.entry) exit) }
{
    let linked = late.linked;
    let Ok(entries) = u32::try_from(linked.table.symbols.len()) else {
        return Err(AllocError);
    };
    Ok(Scene {
        objects: late.objects(),
        known: Known {
            seen: &linked.seen,
            own: late.program.made.own.as_slice(),
            values: linked.values.as_slice(),
        },
        entries,
        exit,
    })
}

/// The size of a program's RAM that is taken up to an address. Fails with `Size` where RAM can't
/// have it, and with `Hart` where the request for it can't be done.
fn ram_for(program: &Program, memory_end: u64) -> Result<u32, AssemblyFault>
    ensures { result ≡ ram_for (program_parts program.now) memory_end }
{
    ram_of(program.requests.ram, memory_end)
}

/// The image of a program with these contents and harts, of which a map tells these notes, in RAM
/// of a size.
fn draw_in<'a>(
    alloc: Global,
    contents: Contents,
    exit: bool,
    images: Vec<HartImage>,
    notes: Vec<HartNote<'a>>,
    ram: u32,
) -> Result<Drawn<'a>, AssemblyFault>
    ensures meant { GivesAll drawn_parts result
        (drawn_in (contents_parts contents) exit images.items
        (map note_parts notes.entry.items) ram) }
    ensures listing { IfOk result (λ made. string_bytes made.listing ≡ canon made.image) }
{
    let Contents { code, memory } = contents;
    let granules = listed_granules(alloc, &memory, ram)?;
    let program = with_exit(code.instructions, exit)?;
    let picture = image_of(alloc, program, ram, granules, images)?;
    Ok(Drawn {
        image: picture.image,
        listing: picture.listing,
        harts: notes,
        origins: code.origins,
    })
}

/// The image of a program: of its instructions, its memory, and harts of these requests. Fails with
/// `Size` where it is too large, and where a request can't be done.
fn draw<'a>(
    alloc: Global,
    late: Late<'_, '_>,
    contents: Contents,
    requests: &[HartRequest<'a>],
    exit: bool,
) -> Result<Drawn<'a>, AssemblyFault>
    ensures meant { GivesAll drawn_parts result (drawn (late_parts late.entry)
        (contents_parts contents) (map hart_request_parts requests.now) exit) }
    ensures listing { IfOk result (λ made. string_bytes made.listing ≡ canon made.image) }
{
    let end = late.linked.layout.memory_end;
    let instructions = late.linked.instructions;
    judge_sizes(instructions, exit, end)?;
    let scene = scene_of(late, exit_address(instructions, exit))?;
    let Opened {
        images,
        notes,
        memory_end,
    } = open_harts(alloc, scene, end, requests)?;
    let ram = ram_for(late.program, memory_end)?;
    draw_in(alloc, contents, exit, images, notes, ram)
}

/// The image of a program that is linked, with harts of these requests.
fn draw_linked<'a>(
    alloc: Global,
    late: Late<'_, '_>,
    requests: &[HartRequest<'a>],
    exit: bool,
) -> Result<Drawn<'a>, AssemblyFault>
    ensures meant { GivesAll drawn_parts result
        (linked_drawn (late_parts late.entry) (map hart_request_parts requests.now) exit) }
    ensures listing { IfOk result (λ made. string_bytes made.listing ≡ canon made.image) }
{
    let contents = read_contents(alloc, late)?;
    draw(alloc, late, contents, requests, exit)
}

/// What a program means that was read.
fn assemble_program<'a>(
    alloc: Global,
    program: Program<'a>,
    harts: Harts<'a>,
) -> Result<Assembled<'a>, AssemblyFault>
    ensures meant { GivesAll assembled_parts result
        (program_meaning (program_parts program.entry) (harts_parts harts.entry)) }
    ensures listing { IfOk result (λ made. string_bytes made.listing ≡ canon made.image) }
{
    let asked = asked_harts(alloc, harts, program.requests.harts.as_slice())?;
    let requests = requests_of(&program, &asked);
    let exit = exits_in(requests);
    let linked = link(alloc, &program, exit)?;
    let late = Late {
        program: &program,
        linked: &linked,
    };
    let drawn = draw_linked(alloc, late, requests, exit)?;
    Ok(Assembled {
        program,
        linked,
        image: drawn.image,
        listing: drawn.listing,
        origins: drawn.origins,
        exit,
        harts: drawn.harts,
    })
}

/// What files mean, with these harts: the image, or the first fault, told in this order: of the
/// files' lengths, bytes and requests; of statements, as they are read; of values; of the whole; of
/// harts, word by word; of the request for memory; of the listing. Running out of memory says
/// nothing of the files.
pub fn assemble<'a>(
    alloc: Global,
    texts: &[&'a [u8]],
    harts: Harts<'a>,
) -> Result<Assembled<'a>, AssemblyFault>
    requires { length texts.now < 2 ^ 32 }
    ensures meant { GivesAll assembled_parts result
        (assembly_meaning (map text_of texts.now) (harts_parts harts.entry)) }
    ensures listing { IfOk result (λ made. string_bytes made.listing ≡ canon made.image) }
{
    let program = read_program(alloc, texts)?;
    assemble_program(alloc, program, harts)
}

/// What a map tells of a program.
fn mapped_of<'p>(assembled: &'p Assembled<'p>) -> Mapped<'p>
    ensures { mapped_parts result ≡ mapped_of (assembled_parts assembled.now) }
{
    let late = Late {
        program: &assembled.program,
        linked: &assembled.linked,
    };
    Mapped {
        objects: late.objects(),
        table: assembled.linked.table.symbols.as_slice(),
        origins: assembled.origins.as_slice(),
        exit: assembled.exit,
        harts: assembled.harts.as_slice(),
    }
}

/// The lines of the map of a program, of files of these names. Fails only when out of memory.
pub fn map_lines<'p>(
    alloc: Global,
    assembled: &'p Assembled<'p>,
    names: &[&'p str],
) -> Result<Vec<MapLine<'p>>, AllocError>
    ensures { IfOk result (λ lines. map line_parts lines.items
        ≡ map_of (assembled_parts assembled.now) (map text_now names.now)) }
{
    asm_mapping::map_lines(alloc, mapped_of(assembled), names)
}
