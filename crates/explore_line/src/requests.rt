//! The command line of `cheri_explore`.
#![tactic(auto, unfolding(crate::specs::Requests::question_of, crate::specs::Requests::search_asked_of, crate::specs::Requests::explore_asked_of))]

ghost use Rattle.std.specs.Prelude.{◌≡◌, ◌≤◌, Err, IfOk, IfSome};
ghost use Rattle.std.specs.Prelude.{None, Some, codes, length, option_and_then, option_map};
ghost use Rattle.clap.specs.Words.{first_of, found_of, rows_of, subcommand_rows_of};
ghost use Rattle.command_line.specs.Found.{form_of, is_given};
ghost use Rattle.command_line.specs.Numbers.{number_or};
ghost use Rattle.explore_line.specs.Requests.{
  asked_by,
  explained_in,
  explore_asked_of,
  keeping_of,
  name_of,
  outcomes_question,
  question_asked_by,
  question_of,
  search_asked_by,
  search_asked_of,
  IsBounded,
};
ghost use Rattle.explore_line.specs.Samples.{IsJobs};
ghost use Rattle.explore_sweeps.specs.declared.TheConstants.{MAX_SWEEPS};

use crate::samples::{MergeRequest, SampleRequest, jobs_found, merge_of, sample_of};
use crate::sweeps::sweeps_found;
use clap::ArgMatches;
use command_line::found::{flag_found, form_found, value_found};
use command_line::numbers::number_or;
use command_line::{CommandFault, Format};
use explore_sweeps::Sweep;
use std::alloc::Global;

/// The most states that a search may keep.
pub const GREATEST_STATES: u32 = 100_000_000;

/// The most states that a search keeps where nothing else is asked for.
pub const USUAL_STATES: u32 = 1_000_000;

/// What a search tells apart though its question doesn't see it: registers that no longer matter,
/// and which of equal harts stands where.
#[derive(Clone, Copy, Debug)]
pub struct Keeping {
    pub registers: bool,
    pub harts: bool,
}

/// What is asked of all schedules.
#[derive(Clone, Copy, Debug, PartialEq, Eq)]
pub enum Question<'a> {
    /// Which outcomes there are, told by the items of this text, if it is there.
    Outcomes { show: Option<&'a str> },
    /// The same, up to which of several equal harts stands where.
    Alike { show: Option<&'a str> },
    /// Whether a state is reached in which this condition holds.
    Find { condition: &'a str },
    /// Which authority each hart, and memory, ever has.
    Authority,
    /// Whether the properties hold that the listing carries.
    Check,
}

/// What a command line asks for: to search the states that the image of the listing in the file of
/// this name reaches, with these sweeps, up to so many states, and to answer in this form. So many
/// `jobs` share the work, where it is said. Where `every_step` is true, states are told apart after
/// each step, also where the question doesn't see it. Where `keeps_registers` is true, they are told apart by all registers, also by those that
/// no longer matter, and where `keeps_harts` is true, by which of equal harts stands where. Where
/// `explained` is true, the answer's orders are explained, and the form is text. Of `find` and
/// `check` `map` may name the file of the map of the listing's program.
#[derive(Debug, Drop)]
pub struct ExploreRequest<'a> {
    pub listing: &'a str,
    pub map: Option<&'a str>,
    pub sweeps: Vec<Sweep>,
    pub states: u32,
    pub jobs: Option<u16>,
    pub every_step: bool,
    pub keeps_registers: bool,
    pub keeps_harts: bool,
    pub form: Format,
    pub explained: bool,
    pub question: Question<'a>,
}

/// What a command line asks for.
#[derive(Debug, Drop)]
pub enum Request<'a> {
    /// To search all states: `outcomes`, `find`, `authority` and `check`.
    Search(ExploreRequest<'a>),
    /// To run in orders that are drawn by chance.
    Sample(SampleRequest<'a>),
    /// To add up answers of `sample`.
    Merge(MergeRequest<'a>),
}

/// What is told apart though the question doesn't see it, by the list that names it.
fn keeping_of(list: Option<&str>) -> Option<Keeping>
    ensures { result ≡ keeping_of (option_map name_of list.entry) }
{
    match list {
        None => Some(Keeping {
            registers: false,
            harts: false,
        }),
        Some("registers") => Some(Keeping {
            registers: true,
            harts: false,
        }),
        Some("harts") => Some(Keeping {
            registers: false,
            harts: true,
        }),
        Some("registers,harts") => Some(Keeping {
            registers: true,
            harts: true,
        }),
        Some("harts,registers") => Some(Keeping {
            registers: true,
            harts: true,
        }),
        Some(_) => None,
    }
}

/// What `outcomes` asks.
fn outcomes_question<'a>(found: &ArgMatches<'a>) -> Question<'a>
    ensures { question_asked_by result ≡ outcomes_question (rows_of (found_of found.now)) }
{
    let show = value_found(found, "show");
    if flag_found(found, "alike") {
        Question::Alike { show }
    } else {
        Question::Outcomes { show }
    }
}

/// What the command of this name asks.
fn question_of<'a>(name: &str, found: &ArgMatches<'a>) -> Option<Question<'a>>
    ensures { option_map question_asked_by result
        ≡ question_of name.now (rows_of (found_of found.now)) }
{
    match name {
        "outcomes" => Some(outcomes_question(found)),
        "find" => {
            let condition = value_found(found, "condition")?;
            Some(Question::Find { condition })
        }
        "authority" => Some(Question::Authority),
        "check" => Some(Question::Check),
        _ => None,
    }
}

/// How many states may be kept.
fn states_found(found: &ArgMatches<'_>) -> Option<u32>
    ensures states { result ≡ number_or USUAL_STATES 1 GREATEST_STATES
        (first_of (codes "states") (rows_of (found_of found.now))) }
    ensures some { IfSome result (λ states. 1 ≤ states) }
{
    number_or(
        USUAL_STATES,
        1,
        GREATEST_STATES,
        value_found(found, "states"),
    )
}

/// Whether orders are explained, which is not asked for in JSON.
fn explained_in(form: Format, explained: bool) -> Option<bool>
    ensures { result ≡ explained_in form explained }
{
    match form {
        Format::Text => Some(explained),
        Format::Json => { if explained { None } else { Some(false) } }
    }
}

/// Whether orders are explained, by the arguments that were found.
fn explained_found(found: &ArgMatches<'_>) -> Option<bool>
    ensures { result ≡ explained_in
        (form_of (first_of (codes "json") (rows_of (found_of found.now))))
        (is_given (first_of (codes "explain") (rows_of (found_of found.now)))) }
{
    explained_in(form_found(found), flag_found(found, "explain"))
}

/// What a search of this name asks for with the arguments that were found.
fn search_of<'a>(
    alloc: Global,
    name: &str,
    found: &ArgMatches<'a>,
) -> Result<ExploreRequest<'a>, CommandFault>
    ensures asked { IfOk result (λ request.
        search_asked_of name.now (rows_of (found_of found.now))
        ≡ Some (search_asked_by request)) }
    ensures usage { result ≡ Err CommandFault.Usage
        → search_asked_of name.now (rows_of (found_of found.now)) ≡ None }
    ensures few { IfOk result (λ request. length request.sweeps.items ≤ MAX_SWEEPS) }
    ensures some { IfOk result (λ request. 1 ≤ request.states) }
    ensures jobs { IfOk result (λ request. IsJobs request.jobs) }
{
    let question = question_of(name, found).ok_or(CommandFault::Usage)?;
    let listing = value_found(found, "listing").ok_or(CommandFault::Usage)?;
    let map = value_found(found, "map");
    let states = states_found(found).ok_or(CommandFault::Usage)?;
    let jobs = jobs_found(found).ok_or(CommandFault::Usage)?;
    let keeping = keeping_of(value_found(found, "keep")).ok_or(CommandFault::Usage)?;
    let explained = explained_found(found).ok_or(CommandFault::Usage)?;
    let sweeps = sweeps_found(alloc, found)?;
    Ok(ExploreRequest {
        listing,
        map,
        sweeps,
        states,
        jobs,
        every_step: flag_found(found, "steps"),
        keeps_registers: keeping.registers,
        keeps_harts: keeping.harts,
        form: form_found(found),
        explained,
        question,
    })
}

/// What the command of this name asks for with the arguments that were found.
fn request_of<'a>(
    alloc: Global,
    name: &str,
    found: &ArgMatches<'a>,
) -> Result<Request<'a>, CommandFault>
    ensures asked { IfOk result (λ request.
        explore_asked_of name.now (rows_of (found_of found.now)) ≡ Some (asked_by request)) }
    ensures usage { result ≡ Err CommandFault.Usage
        → explore_asked_of name.now (rows_of (found_of found.now)) ≡ None }
    ensures bounds { IfOk result IsBounded }
{
    match name {
        "sample" => Ok(Request::Sample(sample_of(alloc, found)?)),
        "merge" => {
            let request = merge_of(found).ok_or(CommandFault::Usage)?;
            Ok(Request::Merge(request))
        }
        _ => Ok(Request::Search(search_of(alloc, name, found)?)),
    }
}

/// What the command that was met asks for.
pub(crate) fn explore_met<'a>(
    alloc: Global,
    matches: &ArgMatches<'a>,
) -> Result<Request<'a>, CommandFault>
    ensures asked { IfOk result (λ request.
        option_and_then (λ found. explore_asked_of found.0 found.1) (subcommand_rows_of matches.now)
        ≡ Some (asked_by request)) }
    ensures usage { result ≡ Err CommandFault.Usage
        → option_and_then (λ found. explore_asked_of found.0 found.1)
        (subcommand_rows_of matches.now) ≡ None }
    ensures bounds { IfOk result IsBounded }
{
    let (name, found) = matches.subcommand().ok_or(CommandFault::Usage)?;
    request_of(alloc, name, found)
}
