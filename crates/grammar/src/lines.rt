//! The lines of a listing.
#![tactic(auto, using(crate::proofs::Rulesets::plain))]

ghost use Rattle.std.specs.Prelude.{◌≡◌, ◌==◌, ◌&&◌, ◌||◌, fold, true};
ghost use Rattle.std.specs.List.{list_all};
ghost use Rattle.grammar.specs.Lines.{is_plain, lines_of};

/// Whether what came before is plain, and so is this byte: a tab or printing ASCII.
fn and_plain(plain: bool, byte: u8) -> bool
    ensures { result ≡ (plain && is_plain byte) }
{
    plain & matches!(byte, b'\t' | b' '..=b'~')
}

/// Looks at each byte, since a loop that may end early is slower than one that never does.
fn each_plain(line: &[u8]) -> bool
    ensures { result ≡ fold (λ plain b. plain && is_plain b) true line.now }
{
    line.iter()
        .fold(true, |plain, byte| and_plain(plain, *byte))
}

/// Whether a line has only tabs and printing ASCII.
pub fn is_plain(line: &[u8]) -> bool
    ensures { result ≡ list_all is_plain line.now }
{
    each_plain(line)
}

/// Whether what came before is plain, and this byte is, or ends a line.
fn and_plain_or_newline(plain: bool, byte: u8) -> bool
    ensures { result ≡ (plain && (is_plain byte || (byte == 0x0A))) }
{
    plain & matches!(byte, b'\t' | b'\n' | b' '..=b'~')
}

/// Looks at each byte of a text, as [`each_plain`] does.
fn each_plain_or_newline(text: &[u8]) -> bool
    ensures { result ≡ fold (λ plain b. plain && (is_plain b || (b == 0x0A))) true text.now }
{
    text.iter()
        .fold(true, |plain, byte| and_plain_or_newline(plain, *byte))
}

/// Whether each line of a text has only tabs and printing ASCII.
pub fn are_plain(text: &[u8]) -> bool
    ensures { result ≡ list_all (λ line. list_all is_plain line) (lines_of text.now) }
{
    each_plain_or_newline(text)
}
