//! What `clap` found among the arguments of a command line.

ghost use Rattle.std.specs.Prelude.{◌≡◌, codes, option_map};
ghost use Rattle.clap.specs.Words.{first_of, found_of, rows_of};
ghost use Rattle.command_line.specs.Found.{form_of, is_given};

use clap::ArgMatches;

/// The form of an answer.
#[derive(Clone, Copy, Debug, PartialEq, Eq)]
pub enum Format {
    Text,
    Json,
}

/// The argument that was found under this name.
pub fn value_found<'a>(found: &ArgMatches<'a>, name: &str) -> Option<&'a str>
    ensures { option_map (λ arg. arg.now) result
        ≡ first_of name.now (rows_of (found_of found.now)) }
{
    found.get_str(name)
}

/// Whether a flag was found.
pub fn flag_found(found: &ArgMatches<'_>, name: &str) -> bool
    ensures { result ≡ is_given (first_of name.now (rows_of (found_of found.now))) }
{
    match value_found(found, name) {
        Some("true") => true,
        _ => false,
    }
}

/// The form that an answer is asked for in: JSON where its flag was found.
pub fn form_found(found: &ArgMatches<'_>) -> Format
    ensures { result ≡ form_of (first_of (codes "json") (rows_of (found_of found.now))) }
{
    if flag_found(found, "json") {
        Format::Json
    } else {
        Format::Text
    }
}
