//! The lines of a listing that carry properties.

ghost use Rattle.std.specs.Prelude.{◌≡◌, ◌<◌, ◌≤◌, ◌+◌, ◌^◌, length, take, if◌then◌else◌};
ghost use Rattle.explore_properties.specs.Lines.{
  blank_count,
  is_blank,
  is_marked,
  is_parted,
  text_length,
};

/// Whether a byte is a space or a tab.
fn is_blank(byte: u8) -> bool
    ensures { result ≡ is_blank byte }
{
    matches!(byte, b' ' | b'\t')
}

/// Where a line ends up to a byte at this place, of a line that ends there before it.
fn end_after(end: usize, place: usize, byte: u8) -> usize
    requires { place < 2 ^ 63 }
    ensures end { result ≡ (if is_blank byte then end else place + 1) }
    ensures within { end ≤ place → result ≤ place + 1 }
{
    if is_blank(byte) { end } else { place + 1 }
}

/// How many bytes a line has without the spaces and tabs at its end.
fn text_length(line: &[u8]) -> usize
    ensures length { result ≡ text_length line.now }
    ensures within { result ≤ length line.now }
{
    let mut end = 0;
    for (place, byte) in line.iter().enumerate() {
        end = end_after(end, place, *byte);
    }
    end
}

/// A line without the spaces and tabs at its end.
pub(crate) fn trimmed(line: &[u8]) -> &[u8]
    ensures { result.now ≡ take (text_length line.now) line.now }
{
    &line[..text_length(line)]
}

/// How many spaces and tabs a line begins with.
pub(crate) fn blank_count(line: &[u8]) -> usize
    ensures { result ≡ blank_count line.now }
{
    line.iter().take_while(|byte| is_blank(**byte)).count()
}

/// Whether a text begins with `#!`.
pub(crate) fn is_marked(text: &[u8]) -> bool
    ensures { result ≡ is_marked text.now }
{
    matches!(text, [b'#', b'!', ..])
}

/// Whether a text that begins with `#!` goes on with a space.
pub(crate) fn is_parted(text: &[u8]) -> bool
    ensures { result ≡ is_parted text.now }
{
    matches!(text, [_, _, b' ', ..])
}
