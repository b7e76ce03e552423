//! The command line of `cheri_explain`: which arguments ask for what.
#![tactic(auto)]

ghost use Rattle.std.specs.Prelude.{◌≡◌, IfOk, Err, Some, None, map};
ghost use Rattle.explain_line.specs.Requests.{explain_asked, explain_asked_by};

pub mod laws;
mod requests;

use crate::requests::{explain_command, explain_of};
use command_line::CommandFault;
pub use requests::{ExplainFormat, ExplainRequest, Filter, LAST_EVENT};
use std::alloc::Global;

/// What the arguments ask `cheri_explain` for, of which the first is the program's name. `Usage`
/// means that they ask for nothing; out of memory can be reported for any
/// arguments.
pub fn explain_request<'a>(
    alloc: Global,
    args: &'a [&'a str],
) -> Result<ExplainRequest<'a>, CommandFault>
    ensures asked { IfOk result (λ request.
        explain_asked (map (λ arg. arg.now) args.now) ≡ Some (explain_asked_by request)) }
    ensures usage { result ≡ Err CommandFault.Usage
        → explain_asked (map (λ arg. arg.now) args.now) ≡ None }
{
    let matches = explain_command(alloc)?.try_get_matches_from(args)?;
    explain_of(&matches).ok_or(CommandFault::Usage)
}
