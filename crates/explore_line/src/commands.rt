//! The commands of `cheri_explore`, as `clap` is given them.

ghost use Rattle.std.specs.Prelude.{◌≡◌, IfOk, false};
ghost use Rattle.clap.specs.Words.{app_of, rule_of};
ghost use Rattle.command_line.specs.Arguments.{has_globals};
ghost use Rattle.explore_line.specs.Commands.{
  authority_command,
  check_command,
  explore_program,
  find_command,
  merge_command,
  outcomes_command,
  repeated_option,
  sample_command,
  with_drawing_options,
  with_explaining_options,
  with_options,
  with_sampling_options,
  with_search_options,
};

use clap::{Arg, ArgAction, Command};
use command_line::arguments::{flag, required, required_option, single_option};
use std::alloc::{AllocError, Global};

/// An option with a value that a command may have many times.
fn repeated_option<'a>(alloc: Global, name: &'a str) -> Arg<'a>
    ensures rule { rule_of result ≡ repeated_option name.now }
    ensures local { result.global ≡ false }
{
    Arg::new(alloc, name).long(name).action(ArgAction::Append)
}

/// A command with the options of each search: `[--states N] [--steps] [--jobs J] [--json]`.
fn with_options<'a>(alloc: Global, command: Command<'a>) -> Result<Command<'a>, AllocError>
    ensures app { IfOk result (λ more. app_of more ≡ with_options (app_of command.entry)) }
    ensures local { has_globals command.entry ≡ false
        → IfOk result (λ more. has_globals more ≡ false) }
{
    let with_states = command.arg(single_option(alloc, "states"))?;
    let with_steps = with_states.arg(flag(alloc, "steps"))?;
    let with_jobs = with_steps.arg(single_option(alloc, "jobs"))?;
    with_jobs.arg(flag(alloc, "json"))
}

/// A command with the options of a search: `[--sweep LO,HI]..` and those of each.
fn with_search_options<'a>(alloc: Global, command: Command<'a>) -> Result<Command<'a>, AllocError>
    ensures app { IfOk result (λ more. app_of more ≡ with_search_options (app_of command.entry)) }
    ensures local { has_globals command.entry ≡ false
        → IfOk result (λ more. has_globals more ≡ false) }
{
    let with_sweeps = command.arg(repeated_option(alloc, "sweep"))?;
    with_options(alloc, with_sweeps)
}

/// A command with the options of how an answer's orders are explained: `[--explain] [--map MAP]`.
fn with_explaining_options<'a>(
    alloc: Global,
    command: Command<'a>,
) -> Result<Command<'a>, AllocError>
    ensures app { IfOk result (λ more.
        app_of more ≡ with_explaining_options (app_of command.entry)) }
    ensures local { has_globals command.entry ≡ false
        → IfOk result (λ more. has_globals more ≡ false) }
{
    let with_explain = command.arg(flag(alloc, "explain"))?;
    with_explain.arg(single_option(alloc, "map"))
}

/// `outcomes LISTING [--show ITEM[,ITEM]..] [--keep WORD[,WORD]..] [--alike]`.
fn outcomes_command<'a>(alloc: Global) -> Result<Command<'a>, AllocError>
    ensures app { IfOk result (λ command. app_of command ≡ outcomes_command) }
    ensures local { IfOk result (λ command. has_globals command ≡ false) }
{
    let command = Command::new(alloc, "outcomes")
        .arg(required(alloc, "listing"))?
        .arg(single_option(alloc, "show"))?
        .arg(single_option(alloc, "keep"))?
        .arg(flag(alloc, "alike"))?;
    with_search_options(alloc, command)
}

/// `find LISTING CONDITION [--explain] [--map MAP] [--keep WORD[,WORD]..]`.
fn find_command<'a>(alloc: Global) -> Result<Command<'a>, AllocError>
    ensures app { IfOk result (λ command. app_of command ≡ find_command) }
    ensures local { IfOk result (λ command. has_globals command ≡ false) }
{
    let alone = Command::new(alloc, "find")
        .arg(required(alloc, "listing"))?
        .arg(required(alloc, "condition"))?;
    let explained = with_explaining_options(alloc, alone)?;
    let keeping = explained.arg(single_option(alloc, "keep"))?;
    with_search_options(alloc, keeping)
}

/// `authority LISTING [--keep WORD[,WORD]..]`.
fn authority_command<'a>(alloc: Global) -> Result<Command<'a>, AllocError>
    ensures app { IfOk result (λ command. app_of command ≡ authority_command) }
    ensures local { IfOk result (λ command. has_globals command ≡ false) }
{
    let command = Command::new(alloc, "authority")
        .arg(required(alloc, "listing"))?
        .arg(single_option(alloc, "keep"))?;
    with_search_options(alloc, command)
}

/// `check LISTING [--explain] [--map MAP] [--keep WORD[,WORD]..]`.
fn check_command<'a>(alloc: Global) -> Result<Command<'a>, AllocError>
    ensures app { IfOk result (λ command. app_of command ≡ check_command) }
    ensures local { IfOk result (λ command. has_globals command ≡ false) }
{
    let alone = Command::new(alloc, "check").arg(required(alloc, "listing"))?;
    let explained = with_explaining_options(alloc, alone)?;
    let keeping = explained.arg(single_option(alloc, "keep"))?;
    with_options(alloc, keeping)
}

/// A command with the options of how orders are drawn: `--orders N [--seed S] [--from I] [--length K]
/// [--depth D]`.
fn with_drawing_options<'a>(alloc: Global, command: Command<'a>) -> Result<Command<'a>, AllocError>
    ensures app { IfOk result (λ more. app_of more ≡ with_drawing_options (app_of command.entry)) }
    ensures local { has_globals command.entry ≡ false
        → IfOk result (λ more. has_globals more ≡ false) }
{
    let with_orders = command.arg(required_option(alloc, "orders"))?;
    let with_seed = with_orders.arg(single_option(alloc, "seed"))?;
    let with_from = with_seed.arg(single_option(alloc, "from"))?;
    let with_length = with_from.arg(single_option(alloc, "length"))?;
    with_length.arg(single_option(alloc, "depth"))
}

/// A command with the options of what is done with runs: `[--show ITEM[,ITEM]..] [--sweep LO,HI]..
/// [--check] [--jobs J] [--json]`.
fn with_sampling_options<'a>(alloc: Global, command: Command<'a>) -> Result<Command<'a>, AllocError>
    ensures app { IfOk result (λ more. app_of more ≡ with_sampling_options (app_of command.entry)) }
    ensures local { has_globals command.entry ≡ false
        → IfOk result (λ more. has_globals more ≡ false) }
{
    let with_show = command.arg(single_option(alloc, "show"))?;
    let with_sweeps = with_show.arg(repeated_option(alloc, "sweep"))?;
    let with_check = with_sweeps.arg(flag(alloc, "check"))?;
    let with_jobs = with_check.arg(single_option(alloc, "jobs"))?;
    with_jobs.arg(flag(alloc, "json"))
}

/// `sample LISTING`.
fn sample_command<'a>(alloc: Global) -> Result<Command<'a>, AllocError>
    ensures app { IfOk result (λ command. app_of command ≡ sample_command) }
    ensures local { IfOk result (λ command. has_globals command ≡ false) }
{
    let alone = Command::new(alloc, "sample").arg(required(alloc, "listing"))?;
    let drawn = with_drawing_options(alloc, alone)?;
    with_sampling_options(alloc, drawn)
}

/// `merge LISTING FILE [--jobs J] [--json]`.
fn merge_command<'a>(alloc: Global) -> Result<Command<'a>, AllocError>
    ensures app { IfOk result (λ command. app_of command ≡ merge_command) }
    ensures local { IfOk result (λ command. has_globals command ≡ false) }
{
    let command = Command::new(alloc, "merge")
        .arg(required(alloc, "listing"))?
        .arg(required(alloc, "slices"))?
        .arg(single_option(alloc, "jobs"))?;
    command.arg(flag(alloc, "json"))
}

/// The program's command: it wants one of these subcommands.
pub(crate) fn explore_command<'a>(alloc: Global) -> Result<Command<'a>, AllocError>
    ensures { IfOk result (λ command. app_of command ≡ explore_program) }
{
    let alone = Command::new(alloc, "cheri_explore").subcommand_required(true);
    let with_outcomes = alone.subcommand(outcomes_command(alloc)?)?;
    let with_find = with_outcomes.subcommand(find_command(alloc)?)?;
    let with_authority = with_find.subcommand(authority_command(alloc)?)?;
    let with_check = with_authority.subcommand(check_command(alloc)?)?;
    let with_sample = with_check.subcommand(sample_command(alloc)?)?;
    with_sample.subcommand(merge_command(alloc)?)
}
