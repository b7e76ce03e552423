//! The command line of `cheri_explain`.
#![tactic(auto, unfolding(crate::specs::Requests::filter_named, crate::specs::Requests::explain_asked_of))]

ghost use Rattle.std.specs.Prelude.{◌≡◌, IfOk, codes, option_map};
ghost use Rattle.clap.specs.Words.{app_of, first_of, found_of, rows_of};
ghost use Rattle.explain_line.specs.Requests.{
  event_or,
  explain_asked_by,
  explain_asked_of,
  explain_form,
  explain_program,
  filter_named,
  filter_of,
  name_of,
};

use clap::{ArgMatches, Command};
use command_line::arguments::{flag, required, required_option, single_option};
use command_line::found::{flag_found, value_found};
use command_line::numbers::number_or;
use std::alloc::{AllocError, Global};

/// The greatest number that an event may have.
pub const LAST_EVENT: u32 = 99_999;

/// Which events are shown.
#[derive(Clone, Copy, Debug, PartialEq, Eq)]
pub enum Filter {
    /// All.
    All,
    /// Those that trapped.
    Traps,
    /// Those that cleared a tag.
    Clears,
    /// Those that trapped or cleared a tag.
    TrapsOrClears,
}

/// The form of an explanation.
#[derive(Clone, Copy, Debug, PartialEq, Eq)]
pub enum ExplainFormat {
    /// Text, of these events.
    Text(Filter),
    /// JSON, of these events.
    Json(Filter),
    /// A page of HTML, of all events.
    Page,
}

/// What a command line asks for: to run the image of a listing in an order, each in the file of
/// this name, and to explain in this form the events whose numbers lie from `first` to `last`, by
/// what the map of this name, if there is one, says that instructions come from.
#[derive(Clone, Copy, Debug, PartialEq, Eq)]
pub struct ExplainRequest<'a> {
    pub listing: &'a str,
    pub order: &'a str,
    pub map: Option<&'a str>,
    pub first: u32,
    pub last: u32,
    pub form: ExplainFormat,
}

/// `cheri_explain LISTING --order FILE [--from I] [--to J] [--only WORDS] [--json] [--html]
/// [--map MAP]`.
pub(crate) fn explain_command<'a>(alloc: Global) -> Result<Command<'a>, AllocError>
    ensures { IfOk result (λ command. app_of command ≡ explain_program) }
{
    let with_listing = Command::new(alloc, "cheri_explain").arg(required(alloc, "listing"))?;
    let with_order = with_listing.arg(required_option(alloc, "order"))?;
    let with_from = with_order.arg(single_option(alloc, "from"))?;
    let with_to = with_from.arg(single_option(alloc, "to"))?;
    let with_only = with_to.arg(single_option(alloc, "only"))?;
    let with_json = with_only.arg(flag(alloc, "json"))?;
    let with_html = with_json.arg(flag(alloc, "html"))?;
    with_html.arg(single_option(alloc, "map"))
}

/// The events that the words of `--only` name.
fn filter_named(words: &str) -> Option<Filter>
    ensures { result ≡ filter_named words.now }
{
    match words {
        "traps" => Some(Filter::Traps),
        "clears" => Some(Filter::Clears),
        "traps,clears" | "clears,traps" => Some(Filter::TrapsOrClears),
        _ => None,
    }
}

/// The events that are shown, by the words of `--only`, if it is there.
fn filter_of(only: Option<&str>) -> Option<Filter>
    ensures { result ≡ filter_of (option_map (λ words. words.now) only.entry) }
{
    match only {
        Some(words) => filter_named(words),
        None => Some(Filter::All),
    }
}

/// The form of an explanation. A page has no other form, shows all events, and knows no map.
fn form_of(html: bool, json: bool, only: Option<&str>, map: Option<&str>) -> Option<ExplainFormat>
    ensures { result ≡ explain_form html json (option_map (λ words. words.now) only.entry)
        (option_map name_of map.entry) }
{
    if html {
        return if json || only.is_some() || map.is_some() {
            None
        } else {
            Some(ExplainFormat::Page)
        };
    }
    let filter = filter_of(only)?;
    if json {
        Some(ExplainFormat::Json(filter))
    } else {
        Some(ExplainFormat::Text(filter))
    }
}

/// The number of an event that the option of this name gives, or what holds where it isn't there.
fn event_or(otherwise: u32, found: &ArgMatches<'_>, name: &str) -> Option<u32>
    ensures { result ≡ event_or otherwise (first_of name.now (rows_of (found_of found.now))) }
{
    number_or(otherwise, 0, LAST_EVENT, value_found(found, name))
}

/// What the arguments that were found ask for.
pub(crate) fn explain_of<'a>(found: &ArgMatches<'a>) -> Option<ExplainRequest<'a>>
    ensures { option_map explain_asked_by result
        ≡ explain_asked_of (rows_of (found_of found.now)) }
{
    let listing = value_found(found, "listing")?;
    let order = value_found(found, "order")?;
    let first = event_or(0, found, "from")?;
    let last = event_or(LAST_EVENT, found, "to")?;
    let html = flag_found(found, "html");
    let json = flag_found(found, "json");
    let map = value_found(found, "map");
    let form = form_of(html, json, value_found(found, "only"), map)?;
    if first <= last {
        Some(ExplainRequest {
            listing,
            order,
            map,
            first,
            last,
            form,
        })
    } else {
        None
    }
}
