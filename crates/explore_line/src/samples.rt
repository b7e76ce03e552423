//! What `sample` and `merge` are asked for.
#![tactic(auto, unfolding(crate::specs::Samples::sample_asked_of, crate::specs::Samples::merge_asked_of))]

ghost use Rattle.std.specs.Prelude.{◌≡◌, ◌≤◌, ◌+◌, Err, IfOk, IfSome, None, Some, codes};
ghost use Rattle.std.specs.Prelude.{length, option_map};
ghost use Rattle.clap.specs.Words.{first_of, found_of, rows_of};
ghost use Rattle.command_line.specs.Numbers.{number_or};
ghost use Rattle.explore_line.specs.Samples.{
  merge_asked_by,
  merge_asked_of,
  optional_number,
  orders_of,
  runs_of,
  runs_within,
  sample_asked_by,
  sample_asked_of,
  IsDepth,
  IsJobs,
  IsSampleBounded,
};
ghost use Rattle.explore_sweeps.specs.declared.TheConstants.{MAX_SWEEPS};

use crate::numbers::{GREATEST_RUN, decimal_within, number_or, run_or_first};
use crate::sweeps::sweeps_found;
use clap::ArgMatches;
use command_line::found::{flag_found, form_found, value_found};
use command_line::{CommandFault, Format};
use explore_sweeps::Sweep;
use std::alloc::Global;

/// The most runs that are made at once.
pub const GREATEST_ORDERS: u32 = 1_000_000_000;

/// The greatest seed.
pub const GREATEST_SEED: u32 = 16_777_215;

/// The most operations that a run may have.
pub const GREATEST_LENGTH: u32 = 100_000;

/// The most operations that a run may have where nothing else is asked for.
pub const USUAL_LENGTH: u32 = 1_000;

/// The greatest depth.
pub const GREATEST_DEPTH: u8 = 16;

/// The most threads.
pub const GREATEST_JOBS: u16 = 256;

/// What a command line asks for: to run the image of the listing in the file of this name so many
/// times, in orders that are drawn, and to count what they give. The runs have the numbers from
/// `first` on, and the seed `seed`; each has at most `length` operations; `depth` is there where
/// harts have priorities, `show` where items tell of the states in which runs end. Where
/// `is_checked` is true, the listing's properties are looked at. So many `jobs` share the work,
/// where it is said.
#[derive(Debug, Drop)]
pub struct SampleRequest<'a> {
    pub listing: &'a str,
    pub orders: u32,
    pub seed: u32,
    pub first: u64,
    pub length: u32,
    pub depth: Option<u8>,
    pub show: Option<&'a str>,
    pub sweeps: Vec<Sweep>,
    pub is_checked: bool,
    pub jobs: Option<u16>,
    pub form: Format,
}

/// What a command line asks for: to add up the answers of `sample` in the file `slices`, all of the
/// listing in the file of this name.
#[derive(Clone, Copy, Debug, PartialEq, Eq)]
pub struct MergeRequest<'a> {
    pub listing: &'a str,
    pub slices: &'a str,
    pub jobs: Option<u16>,
    pub form: Format,
}

/// Which runs are made: so many, from the one with the number `first` on.
#[derive(Clone, Copy, Debug, PartialEq, Eq)]
struct Runs {
    pub first: u64,
    pub orders: u32,
}

/// So many runs, where the last of them has a number.
fn runs_within(first: u64, orders: u32) -> Option<Runs>
    requires { first ≤ GREATEST_RUN }
    ensures runs { result ≡ runs_within first orders }
    ensures last { IfSome result (λ runs. runs.first + runs.orders ≤ GREATEST_RUN + 1) }
    ensures orders { IfSome result (λ runs. runs.orders ≡ orders) }
{
    if first + u64::from(orders) <= GREATEST_RUN + 1 {
        Some(Runs { first, orders })
    } else {
        None
    }
}

/// How many runs are made.
fn orders_found(found: &ArgMatches<'_>) -> Option<u32>
    ensures orders { result ≡ orders_of (first_of (codes "orders") (rows_of (found_of found.now))) }
    ensures some { IfSome result (λ orders. 1 ≤ orders) }
    ensures few { IfSome result (λ orders. orders ≤ GREATEST_ORDERS) }
{
    let arg = value_found(found, "orders")?;
    decimal_within(1, GREATEST_ORDERS, arg)
}

/// Which runs are made.
fn runs_found(found: &ArgMatches<'_>) -> Option<Runs>
    ensures runs { result ≡ runs_of (rows_of (found_of found.now)) }
    ensures last { IfSome result (λ runs. runs.first + runs.orders ≤ GREATEST_RUN + 1) }
    ensures some { IfSome result (λ runs. 1 ≤ runs.orders) }
    ensures few { IfSome result (λ runs. runs.orders ≤ GREATEST_ORDERS) }
{
    let orders = orders_found(found)?;
    let first = run_or_first(value_found(found, "from"))?;
    runs_within(first, orders)
}

/// The seed.
fn seed_found(found: &ArgMatches<'_>) -> Option<u32>
    ensures seed { result
        ≡ number_or 0 0 GREATEST_SEED (first_of (codes "seed") (rows_of (found_of found.now))) }
    ensures greatest { IfSome result (λ seed. seed ≤ GREATEST_SEED) }
{
    number_or(0, 0, GREATEST_SEED, value_found(found, "seed"))
}

/// The most operations that a run may have.
fn length_found(found: &ArgMatches<'_>) -> Option<u32>
    ensures length { result ≡ number_or USUAL_LENGTH 1 GREATEST_LENGTH
        (first_of (codes "length") (rows_of (found_of found.now))) }
    ensures some { IfSome result (λ length. 1 ≤ length) }
    ensures greatest { IfSome result (λ length. length ≤ GREATEST_LENGTH) }
{
    number_or(
        USUAL_LENGTH,
        1,
        GREATEST_LENGTH,
        value_found(found, "length"),
    )
}

/// The depth, where one is given.
fn depth_found(found: &ArgMatches<'_>) -> Option<Option<u8>>
    ensures depth { result ≡ optional_number 1 GREATEST_DEPTH
        (first_of (codes "depth") (rows_of (found_of found.now))) }
    ensures bounds { IfSome result IsDepth }
{
    match value_found(found, "depth") {
        None => Some(None),
        Some(arg) => {
            let depth = decimal_within(1, u32::from(GREATEST_DEPTH), arg)?;
            Some(Some(depth as u8))
        }
    }
}

/// The threads, where they are given.
pub(crate) fn jobs_found(found: &ArgMatches<'_>) -> Option<Option<u16>>
    ensures jobs { result ≡ optional_number 1 GREATEST_JOBS
        (first_of (codes "jobs") (rows_of (found_of found.now))) }
    ensures bounds { IfSome result IsJobs }
{
    match value_found(found, "jobs") {
        None => Some(None),
        Some(arg) => {
            let jobs = decimal_within(1, u32::from(GREATEST_JOBS), arg)?;
            Some(Some(jobs as u16))
        }
    }
}

/// What `sample` asks for with the arguments that were found.
pub(crate) fn sample_of<'a>(
    alloc: Global,
    found: &ArgMatches<'a>,
) -> Result<SampleRequest<'a>, CommandFault>
    ensures asked { IfOk result (λ request.
        sample_asked_of (rows_of (found_of found.now)) ≡ Some (sample_asked_by request)) }
    ensures usage { result ≡ Err CommandFault.Usage
        → sample_asked_of (rows_of (found_of found.now)) ≡ None }
    ensures bounds { IfOk result IsSampleBounded }
{
    let listing = value_found(found, "listing").ok_or(CommandFault::Usage)?;
    let Runs { first, orders } = runs_found(found).ok_or(CommandFault::Usage)?;
    let seed = seed_found(found).ok_or(CommandFault::Usage)?;
    let length = length_found(found).ok_or(CommandFault::Usage)?;
    let depth = depth_found(found).ok_or(CommandFault::Usage)?;
    let jobs = jobs_found(found).ok_or(CommandFault::Usage)?;
    let sweeps = sweeps_found(alloc, found)?;
    Ok(SampleRequest {
        listing,
        orders,
        seed,
        first,
        length,
        depth,
        show: value_found(found, "show"),
        sweeps,
        is_checked: flag_found(found, "check"),
        jobs,
        form: form_found(found),
    })
}

/// What `merge` asks for with the arguments that were found.
pub(crate) fn merge_of<'a>(found: &ArgMatches<'a>) -> Option<MergeRequest<'a>>
    ensures asked { option_map merge_asked_by result ≡ merge_asked_of (rows_of (found_of found.now)) }
    ensures bounds { IfSome result (λ request. IsJobs request.jobs) }
{
    let listing = value_found(found, "listing")?;
    let slices = value_found(found, "slices")?;
    let jobs = jobs_found(found)?;
    Some(MergeRequest {
        listing,
        slices,
        jobs,
        form: form_found(found),
    })
}
