//! Which harts are asked for.
#![tactic(auto, unfolding(crate::proofs::Unfold::asked))]

ghost use Rattle.std.specs.Prelude.{◌≡◌, ◌<◌, ◌^◌, IfOk, length, map};
ghost use Rattle.asm_files.specs.Programs.{text_of};
ghost use Rattle.asm_files.specs.Requests.{hart_request_parts};
ghost use Rattle.asm_pictures.specs.Asked.{
  asked_harts,
  asked_or,
  counted,
  harts_parts,
  said_from,
  said_request,
  some_request,
};

use asm_files::HartRequest;
use asm_requests::words_of;
use std::alloc::{AllocError, Global};

/// Which harts a program is given.
#[derive(Clone, Copy)]
pub enum Harts<'a> {
    /// Those that files request; one without a word where they request none.
    Requested,
    /// One for each of these texts, which are the words of requests.
    Words(&'a [&'a [u8]]),
    /// So many without a word.
    Count(u8),
}

/// A request without a word, of no file.
fn some_request<'a>(alloc: Global) -> HartRequest<'a>
    ensures { hart_request_parts result ≡ some_request }
{
    HartRequest {
        file: 0,
        line: 0,
        words: Vec::new(alloc),
    }
}

/// The request of a text of the command line, by its number from 1 on. Fails only when out of
/// memory.
fn said_request<'a>(
    alloc: Global,
    number: usize,
    text: &'a [u8],
) -> Result<HartRequest<'a>, AllocError>
    ensures { IfOk result (λ request. hart_request_parts request ≡ said_request number text.now) }
{
    let words = words_of(alloc, text, 1)?;
    Ok(HartRequest {
        file: 0,
        line: number,
        words,
    })
}

/// So many requests without a word. Fails only when out of memory.
fn counted<'a>(alloc: Global, count: u8) -> Result<Vec<HartRequest<'a>>, AllocError>
    ensures { IfOk result (λ harts. map hart_request_parts harts.items ≡ counted count) }
{
    let mut harts = Vec::new(alloc);
    for _number in 0..count {
        harts.push(some_request(alloc))?;
    }
    Ok(harts)
}

/// The requests of texts of the command line. Fails only when out of memory.
fn said<'a>(alloc: Global, texts: &[&'a [u8]]) -> Result<Vec<HartRequest<'a>>, AllocError>
    ensures { IfOk result (λ harts. map hart_request_parts harts.items
        ≡ said_from 1 (map text_of texts.now)) }
{
    let mut harts = Vec::new(alloc);
    for (place, text) in texts.iter().enumerate() {
        harts.push(said_request(alloc, place + 1, text)?)?;
    }
    Ok(harts)
}

/// The harts that are asked for in the place of those that files request; `None` where these are
/// the harts. Fails only when out of memory.
pub fn asked_harts<'a>(
    alloc: Global,
    harts: Harts<'a>,
    requested: &[HartRequest],
) -> Result<Option<Vec<HartRequest<'a>>>, AllocError>
    ensures { IfOk result (λ asked. asked_or (map hart_request_parts requested.now) asked
        ≡ asked_harts (harts_parts harts.entry) (map hart_request_parts requested.now)) }
{
    match harts {
        Harts::Requested if requested.is_empty() => Ok(Some(counted(alloc, 1)?)),
        Harts::Requested => Ok(None),
        Harts::Words(texts) => Ok(Some(said(alloc, texts)?)),
        Harts::Count(count) => Ok(Some(counted(alloc, count)?)),
    }
}
