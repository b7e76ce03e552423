//! The command line of `cheri_explore`: which arguments ask for what.
#![tactic(auto)]

ghost use Rattle.std.specs.Prelude.{◌≡◌, IfOk, Err, Some, None, map};
ghost use Rattle.explore_line.specs.Requests.{asked_by, explore_asked, IsBounded};

pub mod alike_laws;
mod commands;
pub mod job_laws;
pub mod keeping_laws;
pub mod laws;
mod numbers;
mod requests;
pub mod sample_laws;
mod samples;
mod sweeps;

use crate::commands::explore_command;
use crate::requests::explore_met;
use command_line::CommandFault;
pub use explore_sweeps::{MAX_SWEEPS, Sweep};
pub use numbers::GREATEST_RUN;
pub use requests::{ExploreRequest, GREATEST_STATES, Keeping, Question, Request, USUAL_STATES};
pub use samples::{
    GREATEST_DEPTH, GREATEST_JOBS, GREATEST_LENGTH, GREATEST_ORDERS, GREATEST_SEED, MergeRequest,
    SampleRequest, USUAL_LENGTH,
};
use std::alloc::Global;

/// What the arguments ask `cheri_explore` for, of which the first is the program's name. `Usage`
/// means that they ask for nothing; out of memory can be reported for any
/// arguments.
pub fn explore_request<'a>(alloc: Global, args: &'a [&'a str]) -> Result<Request<'a>, CommandFault>
    ensures asked { IfOk result (λ request.
        explore_asked (map (λ arg. arg.now) args.now) ≡ Some (asked_by request)) }
    ensures usage { result ≡ Err CommandFault.Usage
        → explore_asked (map (λ arg. arg.now) args.now) ≡ None }
    ensures bounds { IfOk result IsBounded }
{
    let matches = explore_command(alloc)?.try_get_matches_from(args)?;
    explore_met(alloc, &matches)
}
