//! Bytes as texts.

ghost use Rattle.std.specs.Prelude.{◌≡◌, option_map};
ghost use Rattle.asm_map_reader.specs.Words.{text_of};

use std::str;

/// Bytes as a text, where they are one.
#[tactic(auto, using(asm_map_reader::proofs::TextLemmas::texts))]
pub(crate) fn text_of(bytes: &[u8]) -> Option<&str>
    ensures { option_map (λ text. text.now) result ≡ text_of bytes.now }
{
    match str::from_utf8(bytes) {
        Ok(text) => Some(text),
        Err(_) => None,
    }
}
