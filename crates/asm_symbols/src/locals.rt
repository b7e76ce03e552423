//! Local labels: those of a number that a statement can see.
#![tactic(auto, unfolding(crate::proofs::Unfold::locals))]

ghost use Rattle.std.specs.Prelude.{◌≡◌, OnOk};
ghost use Rattle.asm_symbols.specs.Locals.{locals_parts, no_locals, with_local, last_local};

use crate::names::Names;
use asm_tokens::without_zeros;
use std::alloc::{AllocError, Global};

/// A local label: so many bytes from the beginning of a chunk, and the number of the token of its
/// digits in its file.
#[derive(Clone, Copy, Debug, PartialEq, Eq)]
pub struct Local {
    pub chunk: u32,
    pub offset: u32,
    pub token: usize,
}

/// The local labels so far, by their numbers, and the last one of each number that labels have.
#[derive(Drop)]
pub struct Locals<'a> {
    pub places: Vec<Local>,
    pub last: Names<'a>,
}

/// No local label.
pub fn no_locals<'a>(alloc: Global) -> Locals<'a>
    ensures { locals_parts result ≡ no_locals }
{
    Locals {
        places: Vec::new(alloc),
        last: Names::new(alloc),
    }
}

impl<'a> Locals<'a> {
    /// One more local label, by its digits. Zeros before others say nothing.
    pub fn define(&mut self, digits: &'a [u8], place: Local) -> Result<(), AllocError>
        ensures { OnOk result (locals_parts self.new
            ≡ with_local (locals_parts self.old) digits.now place) }
    {
        let Ok(number) = u32::try_from(self.places.len()) else {
            return Err(AllocError);
        };
        self.places.push(place)?;
        self.last.put(without_zeros(digits), number)
    }

    /// The number of the last local label of these digits.
    pub fn last(&self, digits: &[u8]) -> Option<u32>
        ensures { result ≡ last_local (locals_parts self.now) digits.now }
    {
        self.last.find(without_zeros(digits))
    }
}
