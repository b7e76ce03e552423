//! Names and the numbers of what they name.
#![tactic(auto, unfolding(crate::proofs::Unfold::names))]

ghost use Rattle.std.specs.Prelude.{◌≡◌, OnOk, IfOk};
ghost use Rattle.std.specs.Option.{is_none};
ghost use Rattle.asm_symbols.specs.Names.{no_names, defined, replaced, names_of};

use std::alloc::{AllocError, Global};
use std::collections::HashMap;

/// Names, each with the number of what it names.
#[derive(Drop)]
pub struct Names<'a> {
    numbers: HashMap<&'a [u8], u32>,
}

impl<'a> Names<'a> {
    /// No name.
    pub fn new(alloc: Global) -> Names<'a>
        ensures { names_of result ≡ no_names }
    {
        Names {
            numbers: HashMap::new(alloc),
        }
    }

    /// The number of what a name names.
    pub fn find(&self, name: &[u8]) -> Option<u32>
        ensures { result ≡ names_of self.now name.now }
    {
        self.numbers.get(name).copied()
    }

    /// Gives a name the number of what it names, and says whether it was free. A name that is
    /// there keeps its number. Fails only when out of memory.
    pub fn define(&mut self, name: &'a [u8], number: u32) -> Result<bool, AllocError>
        ensures free { IfOk result (λ free. free ≡ is_none (names_of self.old name.now)) }
        ensures names { OnOk result (names_of self.new
            ≡ defined (names_of self.old) name.now number) }
    {
        if self.numbers.contains_key(name) {
            return Ok(false);
        }
        self.numbers.insert(name, number)?;
        Ok(true)
    }

    /// Gives a name a number, in the place of the one that it has. Fails only when out of memory.
    pub fn put(&mut self, name: &'a [u8], number: u32) -> Result<(), AllocError>
        ensures { OnOk result (names_of self.new
            ≡ replaced (names_of self.old) name.now number) }
    {
        self.numbers.insert(name, number)?;
        Ok(())
    }
}
