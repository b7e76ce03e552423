//! The directives of a listing.
#![tactic(auto, unfolding(crate::specs::Directives::has_point))]

ghost use Rattle.std.specs.Prelude.{◌≡◌};
ghost use Rattle.grammar.specs.Directives.{has_point, directive_of};

use cheri_model::table::found_at;

/// What a line that begins with `.` says.
#[derive(Clone, Copy)]
pub enum Directive {
    /// The size of RAM.
    Ram,
    /// The next hart, with its PCC.
    Hart,
    /// The value of a register of the latest hart.
    Set,
    /// Bytes in RAM.
    Bytes,
    /// A tagged capability in RAM.
    Cap,
}

const DIRECTIVES: &[(&str, Directive)] = &[
    (".ram", Directive::Ram),
    (".hart", Directive::Hart),
    (".set", Directive::Set),
    (".bytes", Directive::Bytes),
    (".cap", Directive::Cap),
];

/// Whether a token begins as directives do.
fn has_point(token: &[u8]) -> bool
    ensures { result ≡ has_point token.now }
{
    !token.is_empty() && token[0] == b'.'
}

/// The directive that a token names.
pub fn directive_of(token: &[u8]) -> Option<Directive>
    ensures { result ≡ directive_of token.now }
{
    if !has_point(token) {
        return None;
    }
    found_at(DIRECTIVES, token)
}
