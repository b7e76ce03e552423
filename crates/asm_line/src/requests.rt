//! The command line of `cheri_asm`.
#![tactic(auto, unfolding(crate::specs::Requests::count_of, crate::specs::Requests::asm_asked_of))]

ghost use Rattle.std.specs.Prelude.{
  ◌≡◌,
  ◌≤◌,
  IfOk,
  Err,
  None,
  Some,
  codes,
  false,
  length,
  map,
  option_map,
};
ghost use Rattle.clap.specs.Words.{all_of, app_of, first_of, found_of, rows_of, rule_of};
ghost use Rattle.asm_line.specs.Requests.{
  asm_asked_by,
  asm_asked_of,
  asm_program,
  count_in,
  count_of,
  given,
  is_asked,
  repeated_option,
  repeated_word,
};

use clap::{Arg, ArgAction, ArgMatches, Command};
use command_line::CommandFault;
use command_line::arguments::{flag, single_option};
use command_line::found::{flag_found, value_found};
use std::alloc::{AllocError, Global};

/// The most files of a program.
pub const MAX_FILES: usize = 16;

/// The most harts that a command line may tell of.
pub const MAX_HARTS: usize = 8;

/// What a command line asks for: to assemble these files to one program, whose harts begin as these
/// words say, or as many as the count says, or else as the files say; and to print its listing or
/// its map.
#[derive(Debug, Drop)]
pub struct AsmRequest<'a> {
    pub files: Vec<&'a str>,
    pub harts: Vec<&'a str>,
    pub count: Option<u8>,
    pub map: bool,
}

/// An argument that a command must have, and may have many times.
fn repeated_word<'a>(alloc: Global, name: &'a str) -> Arg<'a>
    ensures rule { rule_of result ≡ repeated_word name.now }
    ensures local { result.global ≡ false }
{
    Arg::new(alloc, name)
        .required(true)
        .action(ArgAction::Append)
}

/// An option with a value that a command may have many times.
fn repeated_option<'a>(alloc: Global, name: &'a str) -> Arg<'a>
    ensures rule { rule_of result ≡ repeated_option name.now }
    ensures local { result.global ≡ false }
{
    Arg::new(alloc, name).long(name).action(ArgAction::Append)
}

/// `cheri_asm FILE [FILE].. [--hart WORDS].. [--harts N] [--map]`.
pub(crate) fn asm_command<'a>(alloc: Global) -> Result<Command<'a>, AllocError>
    ensures { IfOk result (λ command. app_of command ≡ asm_program) }
{
    let with_files = Command::new(alloc, "cheri_asm").arg(repeated_word(alloc, "file"))?;
    let with_hart = with_files.arg(repeated_option(alloc, "hart"))?;
    let with_harts = with_hart.arg(single_option(alloc, "harts"))?;
    with_harts.arg(flag(alloc, "map"))
}

/// A number of harts: one digit, 1 to 8.
fn count_of(text: &str) -> Option<u8>
    ensures { result ≡ count_of text.now }
{
    match text.as_bytes() {
        [digit @ b'1'..=b'8'] => Some(*digit - b'0'),
        _ => None,
    }
}

/// How many harts are asked for, if that is said.
fn count_in(text: Option<&str>) -> Option<Option<u8>>
    ensures { result ≡ count_in (option_map (λ text. text.now) text.entry) }
{
    match text {
        Some(text) => Some(Some(count_of(text)?)),
        None => Some(None),
    }
}

/// The arguments that were found under this name.
fn values_found<'m, 'a>(found: &'m ArgMatches<'a>, name: &str) -> Option<&'m [&'a str]>
    ensures { option_map (λ args. map (λ arg. arg.now) args.now) result
        ≡ all_of name.now (rows_of (found_of found.now)) }
{
    found.get_strs(name)
}

/// These arguments.
fn copied<'a>(alloc: Global, args: &[&'a str]) -> Result<Vec<&'a str>, AllocError>
    ensures { IfOk result (λ values. values.items ≡ args.now) }
{
    let mut values = Vec::new(alloc);
    for arg in args {
        if values.push(*arg).is_err() {
            return Err(AllocError);
        }
    }
    Ok(values)
}

/// The arguments of this name, if they are there.
fn values_of<'a>(
    alloc: Global,
    found: &ArgMatches<'a>,
    name: &str,
) -> Result<Vec<&'a str>, AllocError>
    ensures { IfOk result (λ values. map (λ value. value.now) values.items
        ≡ given (all_of name.now (rows_of (found_of found.now)))) }
{
    match values_found(found, name) {
        Some(args) => copied(alloc, args),
        None => Ok(Vec::new(alloc)),
    }
}

/// Whether there is a file, there are not too many of anything, and harts are told in one way.
fn is_asked(files: &[&str], harts: &[&str], count: Option<u8>) -> bool
    ensures { result ≡ is_asked (map (λ file. file.now) files.now)
        (map (λ hart. hart.now) harts.now) count }
{
    if files.is_empty() || files.len() > MAX_FILES || harts.len() > MAX_HARTS {
        return false;
    }
    harts.is_empty() || count.is_none()
}

/// What the arguments that were found ask for.
pub(crate) fn asm_of<'a>(
    alloc: Global,
    found: &ArgMatches<'a>,
) -> Result<AsmRequest<'a>, CommandFault>
    ensures asked { IfOk result (λ request. asm_asked_of (rows_of (found_of found.now))
        ≡ Some (asm_asked_by request)) }
    ensures usage { result ≡ Err CommandFault.Usage
        → asm_asked_of (rows_of (found_of found.now)) ≡ None }
    ensures few { IfOk result (λ request. length request.files.items ≤ MAX_FILES) }
{
    let count = count_in(value_found(found, "harts")).ok_or(CommandFault::Usage)?;
    let files = values_of(alloc, found, "file")?;
    let harts = values_of(alloc, found, "hart")?;
    if !is_asked(&files, &harts, count) {
        return Err(CommandFault::Usage);
    }
    Ok(AsmRequest {
        files,
        harts,
        count,
        map: flag_found(found, "map"),
    })
}
