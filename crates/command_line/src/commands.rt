//! The commands of `cheri_sim`, as `clap` is given them.

ghost use Rattle.std.specs.Prelude.{◌≡◌, IfOk, false};
ghost use Rattle.clap.specs.Words.{app_of};
ghost use Rattle.command_line.specs.Arguments.{has_globals};
ghost use Rattle.command_line.specs.Commands.{
  bounds_command,
  check_command,
  decode_command,
  listing_command,
  program,
  race_command,
  run_command,
};

use crate::arguments::{flag, required, required_option};
use clap::Command;
use std::alloc::{AllocError, Global};

/// `check LISTING`.
fn check_command<'a>(alloc: Global) -> Result<Command<'a>, AllocError>
    ensures app { IfOk result (λ command. app_of command ≡ check_command) }
    ensures local { IfOk result (λ command. has_globals command ≡ false) }
{
    Command::new(alloc, "check").arg(required(alloc, "listing"))
}

/// A command that wants a listing and the option of this name, and may have the flag of that name.
fn listing_command<'a>(
    alloc: Global,
    name: &'a str,
    option: &'a str,
    switch: &'a str,
) -> Result<Command<'a>, AllocError>
    ensures app { IfOk result (λ command.
        app_of command ≡ listing_command name.now option.now switch.now) }
    ensures local { IfOk result (λ command. has_globals command ≡ false) }
{
    let with_listing = Command::new(alloc, name).arg(required(alloc, "listing"))?;
    let with_option = with_listing.arg(required_option(alloc, option))?;
    with_option.arg(flag(alloc, switch))
}

/// `run LISTING --order FILE [--json]`.
fn run_command<'a>(alloc: Global) -> Result<Command<'a>, AllocError>
    ensures app { IfOk result (λ command. app_of command ≡ run_command) }
    ensures local { IfOk result (λ command. has_globals command ≡ false) }
{
    listing_command(alloc, "run", "order", "json")
}

/// `race LISTING --turns N [--watch]`.
fn race_command<'a>(alloc: Global) -> Result<Command<'a>, AllocError>
    ensures app { IfOk result (λ command. app_of command ≡ race_command) }
    ensures local { IfOk result (λ command. has_globals command ≡ false) }
{
    listing_command(alloc, "race", "turns", "watch")
}

/// `bounds BASE LEN`.
fn bounds_command<'a>(alloc: Global) -> Result<Command<'a>, AllocError>
    ensures app { IfOk result (λ command. app_of command ≡ bounds_command) }
    ensures local { IfOk result (λ command. has_globals command ≡ false) }
{
    Command::new(alloc, "bounds")
        .arg(required(alloc, "base"))?
        .arg(required(alloc, "len"))
}

/// `decode WORD`.
fn decode_command<'a>(alloc: Global) -> Result<Command<'a>, AllocError>
    ensures app { IfOk result (λ command. app_of command ≡ decode_command) }
    ensures local { IfOk result (λ command. has_globals command ≡ false) }
{
    Command::new(alloc, "decode").arg(required(alloc, "word"))
}

/// The program's command: it wants one of these subcommands.
pub(crate) fn program_command<'a>(alloc: Global) -> Result<Command<'a>, AllocError>
    ensures { IfOk result (λ command. app_of command ≡ program) }
{
    let alone = Command::new(alloc, "cheri_sim").subcommand_required(true);
    let with_check = alone.subcommand(check_command(alloc)?)?;
    let with_run = with_check.subcommand(run_command(alloc)?)?;
    let with_race = with_run.subcommand(race_command(alloc)?)?;
    let with_bounds = with_race.subcommand(bounds_command(alloc)?)?;
    with_bounds.subcommand(decode_command(alloc)?)
}
