//! The texts of files: how long they may be, and what is read of them.
#![tactic(auto, unfolding(crate::proofs::Unfold::texts))]

ghost use Rattle.std.specs.Prelude.{◌≡◌, ◌++◌, ◌<◌, ◌^◌, OnOk, length, map};
ghost use Rattle.asm_files.specs.Faults.{GivesAll};
ghost use Rattle.asm_files.specs.Files.{
  all_names,
  file_read,
  files_of,
  length_judged,
  lengths_judged,
};
ghost use Rattle.asm_files.specs.Programs.{file_parts, text_of};
ghost use Rattle.asm_files.specs.Sections.{bytes_of};
ghost use Rattle.asm_files.specs.Steps.{Leaves};

use crate::fault::{AssemblyFault, in_file};
use crate::program::File;
use crate::sections::push_names;
use asm_statements::read_statements;
use asm_tokens::{AsmFault, AsmFaultKind, Place, read_tokens};
use std::alloc::{AllocError, Global};

/// The most bytes of a file.
pub const MAX_FILE: usize = 4_194_304;

/// Refuses the file of a number where it is too long.
fn judge_length(number: u32, text: &[u8]) -> Result<(), AssemblyFault>
    ensures { result ≡ length_judged number text.now }
{
    if text.len() <= MAX_FILE {
        return Ok(());
    }
    let fault = AsmFault {
        kind: AsmFaultKind::Size,
        place: Place { line: 0, column: 0 },
    };
    Err(in_file(number, fault))
}

/// Refuses the first file that is too long.
pub(crate) fn judge_lengths(texts: &[&[u8]]) -> Result<(), AssemblyFault>
    requires { length texts.now < 2 ^ 32 }
    ensures { result ≡ lengths_judged (map text_of texts.now) }
{
    for (number, text) in texts.iter().enumerate() {
        judge_length(number as u32, text)?;
    }
    Ok(())
}

/// Appends the file of a number, by its text. Fails with `Byte` where it has no tokens.
fn push_file<'a>(
    alloc: Global,
    files: &mut Vec<File<'a>>,
    number: u32,
    text: &'a [u8],
) -> Result<(), AssemblyFault>
    ensures { Leaves result (map file_parts files.new.items)
        (file_read number text.now (map file_parts files.old.items)) }
{
    let tokens = match read_tokens(alloc, text) {
        Ok(tokens) => tokens,
        Err(fault) => return Err(in_file(number, fault)),
    };
    let statements = read_statements(alloc, tokens.as_slice())?;
    files.push(File { tokens, statements })?;
    Ok(())
}

/// The files of these texts. Fails at the first place where no token begins.
pub(crate) fn read_files<'a>(
    alloc: Global,
    texts: &[&'a [u8]],
) -> Result<Vec<File<'a>>, AssemblyFault>
    requires { length texts.now < 2 ^ 32 }
    ensures { GivesAll (λ files. map file_parts files.items) result
        (files_of (map text_of texts.now)) }
{
    let mut files = Vec::new(alloc);
    for (number, text) in texts.iter().enumerate() {
        push_file(alloc, &mut files, number as u32, text)?;
    }
    Ok(files)
}

/// Appends the names of the sections that statements of files name, in order. Fails only when out
/// of memory.
pub(crate) fn push_all_names(
    alloc: Global,
    names: &mut Vec<Vec<u8>>,
    files: &[File],
) -> Result<(), AllocError>
    ensures { OnOk result (map bytes_of names.new.items
        ≡ map bytes_of names.old.items ++ all_names (map file_parts files.now)) }
{
    for file in files {
        push_names(
            alloc,
            names,
            file.tokens.as_slice(),
            file.statements.as_slice(),
        )?;
    }
    Ok(())
}
