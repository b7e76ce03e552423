//! What is printed of assembled files: the listing, or the map.
#![tactic(auto, using(crate::proofs::AnswerLemmas::answers))]

ghost use Rattle.std.specs.Prelude.{◌≡◌, ◌<◌, ◌^◌, IfErr, IfOk, Ok, length, map};
ghost use Rattle.std.specs.Prelude.{string_bytes, true};
ghost use Rattle.canonical.specs.Canon.{canon};
ghost use Rattle.asm_files.specs.Faults.{IsNoMemory};
ghost use Rattle.asm_files.specs.Programs.{text_of};
ghost use Rattle.asm_image.specs.Whole.{assembled_parts};
ghost use Rattle.asm_line.specs.Requests.{asm_asked_by};
ghost use Rattle.asm_pictures.specs.Asked.{harts_parts};
ghost use Rattle.printing.specs.Endings.{FailsBy, HasWhole};
ghost use Rattle.asm_program.specs.Faults.{assembly_fault, failure_of};
ghost use Rattle.asm_program.specs.Program.{IsAssembled, IsRefused, IsText, harts_by};
ghost use Rattle.asm_program.specs.Texts.{text_items};

use crate::faults::{Fault, assembly_fault};
use asm_files::AssemblyFault;
use asm_image::{Assembled, Harts, assemble, map_lines};
use asm_line::AsmRequest;
use asm_maps::write_map;
use sinks::{Sink, put_whole};
use std::alloc::{AllocError, Global};

/// The bytes of each of these texts. Fails only when out of memory.
fn bytes_of<'t>(alloc: Global, texts: &'t [Vec<u8>]) -> Result<Vec<&'t [u8]>, AllocError>
    ensures { IfOk result (λ all. map text_of all.items ≡ map text_items texts.now) }
{
    let mut all = Vec::new(alloc);
    for text in texts {
        all.push(text.as_slice())?;
    }
    Ok(all)
}

/// The bytes of each of these words. Fails only when out of memory.
fn words_of<'t>(alloc: Global, words: &[&'t str]) -> Result<Vec<&'t [u8]>, AllocError>
    ensures { IfOk result (λ all. map text_of all.items ≡ map text_of words.now) }
{
    let mut all = Vec::new(alloc);
    for word in words {
        all.push(word.as_bytes())?;
    }
    Ok(all)
}

/// The harts that a request asks for: so many, those of these words, or else those of the files.
fn harts_of<'t>(count: Option<u8>, words: &'t [&'t [u8]]) -> Harts<'t>
    ensures { harts_parts result ≡ harts_by (map text_of words.now) count }
{
    match count {
        Some(count) => Harts::Count(count),
        None if words.is_empty() => Harts::Requested,
        None => Harts::Words(words),
    }
}

/// The map of what files mean, of files of these names. Fails only when out of memory.
fn map_of<'p, 'a: 'p>(
    alloc: Global,
    assembled: &'p Assembled<'a>,
    names: &[&'a str],
) -> Result<String, AllocError>
    ensures { IfOk result (λ text. IsText true (map text_of names.now)
        (assembled_parts assembled.now) (string_bytes text)) }
{
    let lines = map_lines(alloc, assembled, names)?;
    write_map(alloc, lines.as_slice())
}

/// What is printed of what files mean: their listing, or their map. Fails only when out of memory.
fn text_of_assembled<'a>(
    alloc: Global,
    assembled: Assembled<'a>,
    names: &[&'a str],
    is_map: bool,
) -> Result<String, AllocError>
    requires { string_bytes assembled.listing ≡ canon assembled.image }
    ensures { IfOk result (λ text. IsText is_map (map text_of names.now)
        (assembled_parts assembled.entry) (string_bytes text)) }
{
    if is_map {
        map_of(alloc, &assembled, names)
    } else {
        Ok(assembled.listing)
    }
}

/// What a request asks for of files with these texts, whose harts are told in these words.
fn text_told<'t>(
    alloc: Global,
    request: &AsmRequest<'t>,
    texts: &[&'t [u8]],
    words: &'t [&'t [u8]],
) -> Result<String, AssemblyFault>
    requires few { length texts.now < 2 ^ 32 }
    requires told { map text_of words.now ≡ (asm_asked_by request.now).harts }
    ensures text { IfOk result (λ text. IsAssembled (asm_asked_by request.now)
        (map text_of texts.now) (Ok (string_bytes text, tt))) }
    ensures refused { IfErr result (IsRefused (asm_asked_by request.now) (map text_of texts.now)) }
{
    let assembled = assemble(alloc, texts, harts_of(request.count, words))?;
    Ok(text_of_assembled(alloc, assembled, request.files.as_slice(), request.map)?)
}

/// What a request asks for of files with these texts: their listing, or their map.
fn text_asked(
    alloc: Global,
    request: &AsmRequest<'_>,
    texts: &[Vec<u8>],
) -> Result<String, AssemblyFault>
    requires { length texts.now < 2 ^ 32 }
    ensures text { IfOk result (λ text. IsAssembled (asm_asked_by request.now)
        (map text_items texts.now) (Ok (string_bytes text, tt))) }
    ensures refused { IfErr result
        (IsRefused (asm_asked_by request.now) (map text_items texts.now)) }
{
    let bytes = bytes_of(alloc, texts)?;
    let words = words_of(alloc, request.harts.as_slice())?;
    text_told(alloc, request, bytes.as_slice(), words.as_slice())
}

/// Assembles texts, and puts the listing or the map to a sink. Nothing is put before the whole was
/// found good.
pub(crate) fn write_assembled<S: Sink>(
    alloc: Global,
    request: &AsmRequest<'_>,
    texts: &[Vec<u8>],
    sink: &mut S,
) -> Result<(), Fault>
    requires { length texts.now < 2 ^ 32 }
    ensures printed { IfOk result (λ end. HasWhole
        (IsAssembled (asm_asked_by request.now) (map text_items texts.now)) end
        (S.written sink.old) (S.written sink.new)) }
    ensures failed { IfErr result (λ fault. FailsBy (failure_of fault)
        (IsAssembled (asm_asked_by request.now) (map text_items texts.now)) fault
        (S.written sink.old) (S.written sink.new)) }
    ensures identity { S.identity sink.new ≡ S.identity sink.old }
{
    let text = match text_asked(alloc, request, texts) {
        Ok(text) => text,
        Err(fault) => return Err(assembly_fault(fault)),
    };
    put_whole(sink, text.as_bytes())?;
    Ok(())
}
