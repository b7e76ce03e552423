//! The flags and the type of a section.
#![tactic(auto, unfolding(crate::proofs::Unfold::flags))]

ghost use Rattle.std.specs.Prelude.{◌≡◌, codes};
ghost use Rattle.asm_statements.specs.Flags.{
  flags_of,
  is_flag,
  is_nobits,
  kind_of,
  no_flags,
  with_letter,
};

use asm_names::SectionKind;

/// What the flags of a section say: whether it is kept, written and executed; whether it is one
/// for each thread; and whether a letter is no flag.
#[derive(Clone, Copy, Debug, PartialEq, Eq)]
pub struct Flags {
    pub kept: bool,
    pub written: bool,
    pub executed: bool,
    pub threads: bool,
    pub unknown: bool,
}

impl Flags {
    /// No flags.
    fn new() -> Flags
        ensures { result ≡ no_flags }
    {
        Flags {
            kept: false,
            written: false,
            executed: false,
            threads: false,
            unknown: false,
        }
    }

    /// These and that of a letter.
    fn with_letter(self, letter: u8) -> Flags
        ensures { result ≡ with_letter self letter }
    {
        Flags {
            kept: self.kept || letter == b'a',
            written: self.written || letter == b'w',
            executed: self.executed || letter == b'x',
            threads: self.threads || letter == b'T',
            unknown: self.unknown || !is_flag(letter),
        }
    }

    /// The kind of a section with these flags, of zeros that the file hasn't or not; `None` where
    /// code would be written, or be zeros.
    pub(crate) fn kind(self, nobits: bool) -> Option<SectionKind>
        ensures { result ≡ kind_of self nobits }
    {
        if !self.kept {
            return Some(SectionKind::Dropped);
        }
        if self.executed {
            return if self.written || nobits {
                None
            } else {
                Some(SectionKind::Code)
            };
        }
        if !self.written {
            return Some(SectionKind::ReadOnly);
        }
        if nobits {
            Some(SectionKind::Zeros)
        } else {
            Some(SectionKind::ReadWrite)
        }
    }
}

/// Whether a letter is a flag.
fn is_flag(letter: u8) -> bool
    ensures { result ≡ is_flag letter }
{
    matches!(
        letter,
        b'a' | b'w' | b'x' | b'M' | b'S' | b'G' | b'o' | b'R' | b'?' | b'T'
    )
}

/// What the letters of a section's flags say.
pub(crate) fn flags_of(letters: &[u8]) -> Flags
    ensures { result ≡ flags_of letters.now }
{
    let mut flags = Flags::new();
    for letter in letters {
        flags = flags.with_letter(*letter);
    }
    flags
}

/// Whether a type of sections is that of zeros that the file hasn't; `None` where it is no type.
pub(crate) fn is_nobits(name: &[u8]) -> Option<bool>
    ensures { result ≡ is_nobits name.now }
{
    if name == b"nobits".as_slice() {
        return Some(true);
    }
    if name == b"progbits".as_slice() || name == b"note".as_slice() {
        Some(false)
    } else {
        None
    }
}
