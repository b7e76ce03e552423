//! The requests of files: which harts they ask for, and how much memory.
#![tactic(auto, unfolding(crate::proofs::Unfold::requests))]

ghost use Rattle.std.specs.Prelude.{◌≡◌, ◌<◌, ◌^◌, IfOk, drop, length, map};
ghost use Rattle.asm_tokens.specs.Tokens.{token_parts};
ghost use Rattle.asm_requests.specs.Words.{word_parts};
ghost use Rattle.asm_files.specs.Faults.{GivesAll};
ghost use Rattle.asm_files.specs.Files.{all_requests, request_step};
ghost use Rattle.asm_files.specs.Programs.{file_parts};
ghost use Rattle.asm_files.specs.Steps.{Leaves};
ghost use Rattle.asm_files.specs.Requests.{
  fault_of,
  file_requests,
  hart_put,
  hart_request_parts,
  no_requests,
  place_of,
  ram_put,
  request_put,
  request_text,
  request_words,
  requests_parts,
  token_put,
};

use crate::fault::{AssemblyFault, in_file};
use crate::program::File;
use asm_requests::{Request, Word, request_of, words_of};
use asm_tokens::{AsmFault, AsmFaultKind, Place, Token, TokenKind};
use cheri_model::MAX_HARTS;
use std::alloc::{AllocError, Global};

/// What is asked for one hart: its file from 1 on, or 0 for the command line; its line there; and
/// the words that say it.
#[derive(Drop)]
pub struct HartRequest<'a> {
    pub file: u32,
    pub line: usize,
    pub words: Vec<Word<'a>>,
}

/// The bytes of memory that are asked for, `None` at or above 2^128; by which file from 1 on, and
/// at which place.
#[derive(Clone, Copy, Debug)]
pub struct RamRequest {
    pub file: u32,
    pub place: Place,
    pub size: Option<u128>,
}

/// The requests of all files, harts in order.
#[derive(Drop)]
pub struct Requests<'a> {
    pub harts: Vec<HartRequest<'a>>,
    pub ram: Option<RamRequest>,
}

/// No request.
fn no_requests<'a>(alloc: Global) -> Requests<'a>
    ensures { requests_parts result ≡ no_requests }
{
    Requests {
        harts: Vec::new(alloc),
        ram: None,
    }
}

/// The text of a request behind `#@`.
fn request_text<'a>(token: Token<'a>) -> &'a [u8]
    ensures { result.now ≡ request_text (token_parts token.entry) }
{
    match token.text {
        [_, _, rest @ ..] => rest,
        _ => &[],
    }
}

/// The words of a request. Fails only when out of memory.
fn request_words<'a>(alloc: Global, token: Token<'a>) -> Result<Vec<Word<'a>>, AllocError>
    ensures { IfOk result (λ words. map word_parts words.items
        ≡ request_words (token_parts token.entry)) }
{
    let text = request_text(token);
    // A line has a column for each of its bytes: no file is so long that this one has no number.
    let Some(column) = token.place.column.checked_add(2) else {
        return Err(AllocError);
    };
    if column.checked_add(text.len()).is_none() {
        return Err(AllocError);
    }
    words_of(alloc, text, column)
}

/// Where the fault of a request is told: at its first word, or where that could begin.
fn place_of(token: Token, words: &[Word]) -> Place
    ensures { result ≡ place_of (token_parts token.entry) (map word_parts words.now) }
{
    let column = match words.get(0) {
        Some(word) => word.column,
        None => token.place.column.wrapping_add(2),
    };
    Place {
        line: token.place.line,
        column,
    }
}

/// A request that can't be done.
fn fault_of(number: u32, token: Token, words: &[Word]) -> AssemblyFault
    ensures { result ≡ fault_of number (token_parts token.entry) (map word_parts words.now) }
{
    in_file(
        number,
        AsmFault {
            kind: AsmFaultKind::Hart,
            place: place_of(token, words),
        },
    )
}

/// The words behind the first one. Fails only when out of memory.
fn words_behind<'a>(alloc: Global, words: &[Word<'a>]) -> Result<Vec<Word<'a>>, AllocError>
    ensures { IfOk result (λ rest. map word_parts rest.items
        ≡ drop 1 (map word_parts words.now)) }
{
    match words {
        [_, rest @ ..] => rest.to_vec(alloc),
        [] => Ok(Vec::new(alloc)),
    }
}

impl<'a> Requests<'a> {
    /// One more hart. Fails where there are as many as there can be.
    fn put_hart(
        &mut self,
        alloc: Global,
        number: u32,
        token: Token<'a>,
        words: &[Word<'a>],
    ) -> Result<(), AssemblyFault>
        ensures { Leaves result (requests_parts self.new) (hart_put number
            (token_parts token.entry) (map word_parts words.now) (requests_parts self.old)) }
    {
        if self.harts.len() >= MAX_HARTS {
            return Err(fault_of(number, token, words));
        }
        let words = words_behind(alloc, words)?;
        self.harts.push(HartRequest {
            file: number.wrapping_add(1),
            line: token.place.line,
            words,
        })?;
        Ok(())
    }

    /// So many bytes of memory. Fails where memory is asked for already.
    fn put_ram(
        &mut self,
        number: u32,
        token: Token<'a>,
        words: &[Word<'a>],
        size: Option<u128>,
    ) -> Result<(), AssemblyFault>
        ensures { Leaves result (requests_parts self.new) (ram_put number
            (token_parts token.entry) (map word_parts words.now) size (requests_parts self.old)) }
    {
        if self.ram.is_some() {
            return Err(fault_of(number, token, words));
        }
        self.ram = Some(RamRequest {
            file: number.wrapping_add(1),
            place: place_of(token, words),
            size,
        });
        Ok(())
    }

    /// The request that a token of the file of a number is.
    fn put_request(
        &mut self,
        alloc: Global,
        number: u32,
        token: Token<'a>,
    ) -> Result<(), AssemblyFault>
        ensures { Leaves result (requests_parts self.new)
            (request_put number (token_parts token.entry) (requests_parts self.old)) }
    {
        let words = request_words(alloc, token)?;
        let words = words.as_slice();
        match request_of(words) {
            Some(Request::Hart) => self.put_hart(alloc, number, token, words),
            Some(Request::Ram(size)) => self.put_ram(number, token, words, size),
            None => Err(fault_of(number, token, words)),
        }
    }

    /// A token of the file of a number, which may be a request.
    fn put_token(
        &mut self,
        alloc: Global,
        number: u32,
        token: Token<'a>,
    ) -> Result<(), AssemblyFault>
        ensures { Leaves result (requests_parts self.new)
            (token_put number (token_parts token.entry) (requests_parts self.old)) }
    {
        match token.kind {
            TokenKind::Request => self.put_request(alloc, number, token),
            _ => Ok(()),
        }
    }

    /// The requests of the file of a number, in order.
    fn put_tokens(
        &mut self,
        alloc: Global,
        number: u32,
        tokens: &[Token<'a>],
    ) -> Result<(), AssemblyFault>
        ensures { Leaves result (requests_parts self.new)
            (file_requests number (map token_parts tokens.now) (requests_parts self.old)) }
    {
        for token in tokens {
            self.put_token(alloc, number, *token)?;
        }
        Ok(())
    }
}

impl<'a> Requests<'a> {
    /// The requests of a file, by its number.
    fn put_file(&mut self, alloc: Global, number: u32, file: &File<'a>) -> Result<(), AssemblyFault>
        ensures { Leaves result (requests_parts self.new)
            (request_step number (file_parts file.now) (requests_parts self.old)) }
    {
        self.put_tokens(alloc, number, file.tokens.as_slice())
    }
}

/// The requests of all files. Fails with `Hart` at the first one that is none, or too many.
pub(crate) fn read_requests<'a>(
    alloc: Global,
    files: &[File<'a>],
) -> Result<Requests<'a>, AssemblyFault>
    requires { length files.now < 2 ^ 32 }
    ensures { GivesAll requests_parts result (all_requests (map file_parts files.now)) }
{
    let mut requests = no_requests(alloc);
    for (number, file) in files.iter().enumerate() {
        requests.put_file(alloc, number as u32, file)?;
    }
    Ok(requests)
}
