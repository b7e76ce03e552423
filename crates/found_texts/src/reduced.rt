//! What is said of registers that were forgotten.

ghost use Rattle.std.specs.Prelude.{◌≡◌, if◌then◌else◌, []};
ghost use Rattle.found_texts.specs.ReducedTexts.{reduced_line};

/// The line of it, where they were; else nothing.
pub fn reduced_line(reduced: bool) -> &'static str
    ensures { result.now ≡ (if reduced then reduced_line else []) }
{
    if reduced { "reduced registers\n" } else { "" }
}

/// The version of an answer: 2 where they were, else 1.
pub fn reduced_version(reduced: bool) -> u8
    ensures { result ≡ (if reduced then 2 else 1) }
{
    if reduced { 2 } else { 1 }
}
