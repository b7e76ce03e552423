//! Symbols by their names, once each has its value.
#![tactic(auto, unfolding(crate::proofs::Unfold::known))]

ghost use Rattle.std.specs.Prelude.{◌≡◌, map};
ghost use Rattle.asm_symbols.specs.Names.{names_of};
ghost use Rattle.asm_starts.specs.Known.{first_named, found, known_parts, number_of};

use asm_symbols::{Names, Value};

/// The symbols of a program by their names: those that all files see, those of each file, and what
/// each symbol is worth, by its number, if it is worth something.
#[derive(Clone, Copy)]
pub struct Known<'a> {
    pub seen: &'a Names<'a>,
    pub own: &'a [Names<'a>],
    pub values: &'a [Option<Value>],
}

/// The number of the symbol of the first file that has this name.
fn first_named(own: &[Names], name: &[u8]) -> Option<u32>
    ensures { result ≡ first_named (map names_of own.now) name.now }
{
    for names in own {
        let number = names.find(name);
        if number.is_some() {
            return number;
        }
    }
    None
}

impl Known<'_> {
    /// The number of the symbol that a request names: one that all files see, or else one of the
    /// first file that has it.
    fn number_of(&self, name: &[u8]) -> Option<u32>
        ensures { result ≡ number_of (known_parts self.now) name.now }
    {
        match self.seen.find(name) {
            Some(number) => Some(number),
            None => first_named(self.own, name),
        }
    }

    /// What the symbol is worth that a request names.
    pub fn find(&self, name: &[u8]) -> Option<Value>
        ensures { result ≡ found (known_parts self.now) name.now }
    {
        let number = self.number_of(name)?;
        match self.values.get(number as usize) {
            Some(value) => *value,
            None => None,
        }
    }
}
