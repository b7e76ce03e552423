//! What a command asks for, with the arguments that `clap` found.
#![tactic(auto, unfolding(crate::specs::Requests::asked_of))]

ghost use Rattle.std.specs.Prelude.{◌≡◌, option_map, option_and_then, codes};
ghost use Rattle.clap.specs.Words.{first_of, found_of, rows_of, subcommand_rows_of};
ghost use Rattle.command_line.specs.Found.{form_of, is_given};
ghost use Rattle.command_line.specs.Requests.{asked_by, asked_of, with_one, with_two};
ghost use Rattle.command_line.specs.Requests.{Check, Run, Bounds, Decode, race_asked};

use crate::found::{Format, flag_found, form_found, value_found};
use crate::numbers::decimal_within;
use clap::ArgMatches;

/// The greatest number of turns of a race.
pub const GREATEST_TURNS: u32 = 100_000;

/// What a command line asks for. The numbers of `bounds` and `decode` are still the arguments of
/// the command line.
#[derive(Clone, Copy, Debug, PartialEq, Eq)]
pub enum Request<'a> {
    /// To judge the listing in the file of this name.
    Check {
        listing: &'a str,
    },
    /// To run the image of a listing in an order, each in the file of this name, and to report it
    /// in this form.
    Run {
        listing: &'a str,
        order: &'a str,
        form: Format,
    },
    /// To race the harts of the listing in the file of this name, each in up to this many turns,
    /// and to report it; and, where `watch` says so, to look on meanwhile.
    Race {
        listing: &'a str,
        turns: u32,
        watch: bool,
    },
    /// For the rounding of a range, by its base and its length.
    Bounds {
        base: &'a str,
        len: &'a str,
    },
    /// For the fields of a word of 128 bits.
    Decode {
        word: &'a str,
    },
}

/// `check` with the argument that was found.
fn check_request<'a>(found: &ArgMatches<'a>) -> Option<Request<'a>>
    ensures { let rows = rows_of (found_of found.now) in
        option_map asked_by result ≡ with_one Check (first_of (codes "listing") rows) }
{
    let listing = value_found(found, "listing")?;
    Some(Request::Check { listing })
}

/// `run` with the arguments that were found.
fn run_request<'a>(found: &ArgMatches<'a>) -> Option<Request<'a>>
    ensures { let rows = rows_of (found_of found.now) in
        option_map asked_by result
        ≡ with_two (λ listing order. Run listing order (form_of (first_of (codes "json") rows)))
        (first_of (codes "listing") rows) (first_of (codes "order") rows) }
{
    let listing = value_found(found, "listing")?;
    let order = value_found(found, "order")?;
    let form = form_found(found);
    Some(Request::Run {
        listing,
        order,
        form,
    })
}

/// `race` with the arguments that were found.
fn race_request<'a>(found: &ArgMatches<'a>) -> Option<Request<'a>>
    ensures { let rows = rows_of (found_of found.now) in
        option_map asked_by result
        ≡ race_asked (first_of (codes "listing") rows) (first_of (codes "turns") rows)
        (is_given (first_of (codes "watch") rows)) }
{
    let listing = value_found(found, "listing")?;
    let arg = value_found(found, "turns")?;
    let turns = decimal_within(1, GREATEST_TURNS, arg)?;
    let watch = flag_found(found, "watch");
    Some(Request::Race {
        listing,
        turns,
        watch,
    })
}

/// `bounds` with the arguments that were found.
fn bounds_request<'a>(found: &ArgMatches<'a>) -> Option<Request<'a>>
    ensures { let rows = rows_of (found_of found.now) in
        option_map asked_by result
        ≡ with_two Bounds (first_of (codes "base") rows) (first_of (codes "len") rows) }
{
    let base = value_found(found, "base")?;
    let len = value_found(found, "len")?;
    Some(Request::Bounds { base, len })
}

/// `decode` with the argument that was found.
fn decode_request<'a>(found: &ArgMatches<'a>) -> Option<Request<'a>>
    ensures { let rows = rows_of (found_of found.now) in
        option_map asked_by result ≡ with_one Decode (first_of (codes "word") rows) }
{
    let word = value_found(found, "word")?;
    Some(Request::Decode { word })
}

/// What a command asks for with the arguments that were found.
fn request_of<'a>(name: &str, found: &ArgMatches<'a>) -> Option<Request<'a>>
    ensures { option_map asked_by result ≡ asked_of name.now (rows_of (found_of found.now)) }
{
    match name {
        "check" => check_request(found),
        "run" => run_request(found),
        "race" => race_request(found),
        "bounds" => bounds_request(found),
        "decode" => decode_request(found),
        _ => None,
    }
}

/// What the command that was met asks for.
pub(crate) fn request_met<'a>(matches: &ArgMatches<'a>) -> Option<Request<'a>>
    ensures { option_map asked_by result
        ≡ option_and_then (λ found. asked_of found.0 found.1) (subcommand_rows_of matches.now) }
{
    let (name, found) = matches.subcommand()?;
    request_of(name, found)
}
