//! The command line of `cheri_asm`: which arguments ask for what.
#![tactic(auto)]

ghost use Rattle.std.specs.Prelude.{◌≡◌, ◌≤◌, IfOk, Err, Some, None, length, map};
ghost use Rattle.asm_line.specs.Requests.{asm_asked, asm_asked_by};
ghost use Rattle.asm_line.specs.declared.requests.TheConstants.{MAX_FILES};

pub mod laws;
mod requests;

use crate::requests::{asm_command, asm_of};
use command_line::CommandFault;
pub use requests::{AsmRequest, MAX_FILES, MAX_HARTS};
use std::alloc::Global;

/// What the arguments ask `cheri_asm` for, of which the first is the program's name. `Usage` means
/// that they ask for nothing; out of memory can be reported for any arguments.
pub fn asm_request<'a>(alloc: Global, args: &'a [&'a str]) -> Result<AsmRequest<'a>, CommandFault>
    ensures asked { IfOk result (λ request.
        asm_asked (map (λ arg. arg.now) args.now) ≡ Some (asm_asked_by request)) }
    ensures usage { result ≡ Err CommandFault.Usage
        → asm_asked (map (λ arg. arg.now) args.now) ≡ None }
    ensures few { IfOk result (λ request. length request.files.items ≤ MAX_FILES) }
{
    let matches = asm_command(alloc)?.try_get_matches_from(args)?;
    asm_of(alloc, &matches)
}
