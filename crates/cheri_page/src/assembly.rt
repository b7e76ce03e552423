//! Calls about a file of assembly.
#![tactic(auto, using(crate::proofs::AssemblyLemmas::assembles))]

ghost use Rattle.std.specs.Prelude.{◌≡◌, ◌⊎◌, Err, IfErr, IfOk, string_bytes};
ghost use Rattle.asm_files.specs.Faults.{IsNoMemory};
ghost use Rattle.asm_image.specs.Whole.{assembled_parts};
ghost use Rattle.cheri_page.specs.Answers.{Answers};
ghost use Rattle.cheri_page.specs.Assembly.{IsListingTold, IsMapOf, IsMapText, IsMapTold};
ghost use Rattle.cheri_page.specs.Assembly.{meaning_of};

use crate::answer::{Answer, tell};
use crate::fault::Fault;
use crate::texts::text_of;
use asm_files::AssemblyFault;
use asm_image::{Assembled, assemble, map_lines};
use asm_maps::write_map;
use asm_pictures::Harts;
use std::alloc::{AllocError, Global};

/// The listing that a file of assembly means, with the harts that it requests.
#[unsafe(no_mangle)]
pub extern "C" fn cheri_assemble(
    alloc: Global,
    assembly: &[u8],
    out: &mut [u8],
    answer: &mut Answer,
)
    ensures { Answers (IsListingTold assembly.now) out.old out.new answer.new }
{
    match assemble(alloc, &[assembly], Harts::Requested) {
        Ok(assembled) => tell(alloc, assembled.listing.as_bytes(), None, out, answer),
        Err(fault) => tell(alloc, b"", Some(Fault::from(fault)), out, answer),
    }
}

/// The map of what a file of this name means. Fails only when out of memory.
fn map_of<'p, 'a: 'p>(
    alloc: Global,
    assembled: &'p Assembled<'a>,
    name: &'a str,
) -> Result<String, AllocError>
    ensures { IfOk result (λ text. IsMapOf (assembled_parts assembled.now) name.now
        (string_bytes text)) }
{
    let lines = map_lines(alloc, assembled, &[name])?;
    write_map(alloc, lines.as_slice())
}

/// The map of a file of assembly of this name.
fn map_of_text<'t>(
    alloc: Global,
    assembly: &'t [u8],
    name: &'t str,
) -> Result<String, AssemblyFault>
    ensures text { IfOk result (λ text.
        IsMapText (meaning_of assembly.now) name.now (string_bytes text)) }
    ensures refused { IfErr result (λ fault.
        IsNoMemory fault ⊎ (meaning_of assembly.now ≡ Err fault)) }
{
    let assembled = assemble(alloc, &[assembly], Harts::Requested)?;
    Ok(map_of(alloc, &assembled, name)?)
}

/// The map of a file of assembly, with the harts that it requests; the file has this name, which is
/// judged first.
#[unsafe(no_mangle)]
pub extern "C" fn cheri_map(
    alloc: Global,
    assembly: &[u8],
    name: &[u8],
    out: &mut [u8],
    answer: &mut Answer,
)
    ensures { Answers (IsMapTold assembly.now name.now) out.old out.new answer.new }
{
    let Some(name) = text_of(name) else {
        return tell(alloc, b"", Some(Fault::BadName), out, answer);
    };
    match map_of_text(alloc, assembly, name) {
        Ok(text) => tell(alloc, text.as_bytes(), None, out, answer),
        Err(fault) => tell(alloc, b"", Some(Fault::from(fault)), out, answer),
    }
}
