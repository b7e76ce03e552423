//! The command line of `cheri_sim`: which arguments ask for what; and what every program's command
//! line is made of and read by.
#![tactic(auto)]

ghost use Rattle.std.specs.Prelude.{◌≡◌, IfOk, Err, Some, None, map};
ghost use Rattle.command_line.specs.Requests.{asked, asked_by};

pub mod arguments;
mod commands;
mod faults;
pub mod found;
pub mod laws;
pub mod numbers;
mod requests;

use crate::commands::program_command;
use crate::requests::request_met;
pub use faults::CommandFault;
pub use found::Format;
pub use requests::{GREATEST_TURNS, Request};
use std::alloc::Global;

/// What the arguments ask `cheri_sim` for, of which the first is the program's name. `Usage`
/// means that they ask for nothing as `clap` reads them; out of memory can be reported for any
/// arguments.
pub fn parse<'a>(alloc: Global, args: &'a [&'a str]) -> Result<Request<'a>, CommandFault>
    ensures asked { IfOk result (λ request.
        asked (map (λ arg. arg.now) args.now) ≡ Some (asked_by request)) }
    ensures usage { result ≡ Err CommandFault.Usage
        → asked (map (λ arg. arg.now) args.now) ≡ None }
{
    let matches = program_command(alloc)?.try_get_matches_from(args)?;
    request_met(&matches).ok_or(CommandFault::Usage)
}
