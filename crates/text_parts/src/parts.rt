//! A text parted at a mark.
#![tactic(auto, unfolding(crate::specs::Parts::parted))]

ghost use Rattle.std.specs.Prelude.{◌≡◌, ◌==◌, ◌<◌, IfSome, length, option_map, position};
ghost use Rattle.text_parts.specs.Parts.{both_parts, parted};

/// Where the first mark of a text is.
fn mark_at(mark: u8, text: &[u8]) -> Option<usize>
    ensures value { result ≡ position (λ b. b == mark) text.now }
    ensures bound { IfSome result (λ at. at < length text.now) }
{
    text.iter().position(|byte| *byte == mark)
}

/// What is before the first mark of a text, and what is behind it; `None` where it has none.
pub fn parted(mark: u8, text: &[u8]) -> Option<(&[u8], &[u8])>
    ensures { option_map both_parts result ≡ parted mark text.now }
{
    match mark_at(mark, text) {
        Some(at) => Some((&text[..at], &text[at + 1..])),
        None => None,
    }
}
