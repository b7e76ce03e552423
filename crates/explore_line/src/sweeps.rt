//! The sweeps of a search.

ghost use Rattle.std.specs.Prelude.{◌≡◌, ◌≤◌, Err, IfOk, None};
ghost use Rattle.std.specs.Prelude.{Some, codes, length, map, option_map};
ghost use Rattle.clap.specs.Words.{all_of, found_of, rows_of};
ghost use Rattle.explore_line.specs.Sweeps.{few_sweeps_of, sweeps_in};
ghost use Rattle.explore_sweeps.specs.Sweeps.{sweep_of};

use clap::ArgMatches;
use command_line::CommandFault;
use explore_sweeps::{MAX_SWEEPS, Sweep, sweep_of};
use std::alloc::Global;

/// The sweep that an argument writes.
fn sweep_written(arg: &str) -> Option<Sweep>
    ensures { result ≡ sweep_of arg.now }
{
    sweep_of(arg.as_bytes())
}

/// The sweeps that arguments write, at most eight.
fn sweeps_written(alloc: Global, args: &[&str]) -> Result<Vec<Sweep>, CommandFault>
    ensures sweeps { IfOk result (λ sweeps.
        few_sweeps_of (map (λ arg. arg.now) args.now) ≡ Some sweeps.items) }
    ensures usage { result ≡ Err CommandFault.Usage
        → few_sweeps_of (map (λ arg. arg.now) args.now) ≡ None }
    ensures few { IfOk result (λ sweeps. length sweeps.items ≤ MAX_SWEEPS) }
{
    if args.len() > MAX_SWEEPS {
        return Err(CommandFault::Usage);
    }
    let mut sweeps = Vec::new(alloc);
    for arg in args {
        let sweep = sweep_written(arg).ok_or(CommandFault::Usage)?;
        let Ok(()) = sweeps.push(sweep) else {
            return Err(CommandFault::NoMemory);
        };
    }
    Ok(sweeps)
}

/// The arguments that were found under this name.
fn values_found<'m, 'a>(found: &'m ArgMatches<'a>, name: &str) -> Option<&'m [&'a str]>
    ensures { option_map (λ args. map (λ arg. arg.now) args.now) result
        ≡ all_of name.now (rows_of (found_of found.now)) }
{
    found.get_strs(name)
}

/// The sweeps that may be taken.
pub(crate) fn sweeps_found(
    alloc: Global,
    found: &ArgMatches<'_>,
) -> Result<Vec<Sweep>, CommandFault>
    ensures sweeps { IfOk result (λ sweeps.
        sweeps_in (all_of (codes "sweep") (rows_of (found_of found.now))) ≡ Some sweeps.items) }
    ensures usage { result ≡ Err CommandFault.Usage
        → sweeps_in (all_of (codes "sweep") (rows_of (found_of found.now))) ≡ None }
    ensures few { IfOk result (λ sweeps. length sweeps.items ≤ MAX_SWEEPS) }
{
    match values_found(found, "sweep") {
        Some(args) => sweeps_written(alloc, args),
        None => Ok(Vec::new(alloc)),
    }
}
