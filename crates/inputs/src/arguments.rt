//! The arguments of the command line.

ghost use Rattle.std.specs.Prelude.{◌≡◌, IfOk, map};
ghost use Rattle.inputs.specs.Arguments.{command_args};

use std::alloc::{AllocError, Global};
use std::{env, io, rt};

/// The arguments after the program's name.
pub fn args_given<R: rt::Env + AllocGlobal>(rt: &R) -> io::Result<Vec<String>> {
    Ok(env::args(rt)?.skip(1).collect(rt.alloc())?)
}

/// The arguments of a command line: the program's name and then these. Fails only when out of
/// memory.
pub fn command_args<'a>(
    alloc: Global,
    name: &'a str,
    args: &'a [String],
) -> Result<Vec<&'a str>, AllocError>
    ensures { IfOk result (λ all. map (λ arg. arg.now) all.items
        ≡ command_args name.entry.now args.entry.now) }
{
    let mut all = Vec::new(alloc);
    if all.push(name).is_err() {
        return Err(AllocError);
    }
    for arg in args {
        if all.push(arg.as_str()).is_err() {
            return Err(AllocError);
        }
    }
    Ok(all)
}
