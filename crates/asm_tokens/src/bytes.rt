//! What bytes are by themselves.
#![tactic(auto, using(crate::proofs::Rulesets::cuts), unfolding(crate::proofs::Unfold::classes))]

ghost use Rattle.std.specs.Prelude.{◌≡◌, ◌≤◌, drop, length, take, take_while};
ghost use Rattle.asm_tokens.specs.Bytes.{
  is_blank,
  is_name_start,
  is_name_byte,
  is_string_byte,
  rest_of_line,
};

/// Whether a byte is a blank: a space, a tab or a carriage return.
pub fn is_blank(byte: u8) -> bool
    ensures { result ≡ is_blank byte }
{
    matches!(byte, b' ' | b'\t' | b'\r')
}

/// Whether a name may begin with a byte.
pub fn is_name_start(byte: u8) -> bool
    ensures { result ≡ is_name_start byte }
{
    matches!(byte, b'A'..=b'Z' | b'a'..=b'z' | b'_' | b'.' | b'$')
}

/// Whether a name may go on with a byte.
pub fn is_name_byte(byte: u8) -> bool
    ensures { result ≡ is_name_byte byte }
{
    is_name_start(byte) || byte.is_ascii_digit()
}

/// Whether a byte of a string stands for itself. (The quote and the backslash pass too; they are
/// looked at before.)
pub fn is_string_byte(byte: u8) -> bool
    ensures { result ≡ is_string_byte byte }
{
    byte == b'\t' || (byte >= 0x20 && byte != 0x7F)
}

/// How many blanks a text begins with.
pub fn blank_count(text: &[u8]) -> usize
    ensures { result ≡ length (take_while is_blank text.now) }
{
    text.iter().take_while(|byte| is_blank(**byte)).count()
}

/// How many bytes of names a text begins with.
pub fn name_count(text: &[u8]) -> usize
    ensures { result ≡ length (take_while is_name_byte text.now) }
{
    text.iter().take_while(|byte| is_name_byte(**byte)).count()
}

/// How many bytes are before the end of the line.
pub fn line_count(text: &[u8]) -> usize
    ensures { result ≡ length (rest_of_line text.now) }
{
    text.iter().take_while(|byte| **byte != b'\n').count()
}

/// A text without so many bytes at its beginning.
pub fn skipped(text: &[u8], count: usize) -> &[u8]
    requires { count ≤ length text.now }
    ensures { result.now ≡ drop count text.now }
{
    &text[count..]
}

/// The first bytes of a text, so many.
pub fn taken(text: &[u8], count: usize) -> &[u8]
    requires { count ≤ length text.now }
    ensures { result.now ≡ take count text.now }
{
    &text[..count]
}
