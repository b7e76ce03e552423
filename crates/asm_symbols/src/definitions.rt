//! The symbols that files define.
#![tactic(auto, using(crate::proofs::Rulesets::counts))]

ghost use Rattle.std.specs.Prelude.{◌≡◌, IfOk, length};
ghost use Rattle.asm_symbols.specs.Names.{names_of};
ghost use Rattle.asm_symbols.specs.Definitions.{
  Defines,
  definition_parts,
  label_symbol,
  assigned_symbol,
  common_symbol,
  symbols_parts,
  no_symbols,
  in_file,
};

use crate::names::Names;
use asm_values::{Location, Value};
use std::alloc::{AllocError, Global};
use std::mem::replace;

/// What a symbol is.
#[derive(Clone, Copy, Debug, PartialEq, Eq)]
pub enum Meaning {
    /// So many bytes from the beginning of a chunk, by its number.
    Place(u32, u32),
    /// The value of the expression of a statement, by its number in its file.
    Assigned(usize),
}

/// A symbol as its file defines it.
#[derive(Clone, Copy, Debug)]
pub struct Definition<'a> {
    pub name: &'a [u8],
    /// The number of its file.
    pub file: u32,
    /// The number of its name's token in its file.
    pub token: usize,
    pub meaning: Meaning,
    /// Its value, where it is known while the file is read.
    pub early: Option<Value>,
    /// The bytes of a common symbol.
    pub bytes: Option<u32>,
}

/// The symbols of all files so far, by their numbers, and the names of the file that is read: of
/// its own symbols, and those that it wants all files to see.
#[derive(Drop)]
pub struct Symbols<'a> {
    pub definitions: Vec<Definition<'a>>,
    pub own: Names<'a>,
    pub wanted: Names<'a>,
    /// The number of the file.
    pub file: u32,
}

/// No symbol, in the first file.
pub fn no_symbols<'a>(alloc: Global) -> Symbols<'a>
    ensures { symbols_parts result ≡ no_symbols }
{
    Symbols {
        definitions: Vec::new(alloc),
        own: Names::new(alloc),
        wanted: Names::new(alloc),
        file: 0,
    }
}

impl<'a> Symbols<'a> {
    /// The number of the next symbol. Fails where there is no memory for so many.
    fn next_number(&self) -> Result<u32, AllocError>
        ensures { IfOk result (λ number. number ≡ length self.now.definitions.items) }
    {
        match u32::try_from(self.definitions.len()) {
            Ok(number) => Ok(number),
            Err(_) => Err(AllocError),
        }
    }

    /// Defines a symbol, and says whether its name was free in this file; else nothing changes.
    fn define(&mut self, definition: Definition<'a>) -> Result<bool, AllocError>
        ensures { Defines result (symbols_parts self.old) (symbols_parts self.new)
            (definition_parts definition.entry) }
    {
        let number = self.next_number()?;
        if self.own.find(definition.name).is_some() {
            return Ok(false);
        }
        self.own.define(definition.name, number)?;
        self.definitions.push(definition)?;
        Ok(true)
    }

    /// A label, by the number of its token: a place in a chunk. Says whether the name was free.
    pub fn define_label(
        &mut self,
        name: &'a [u8],
        token: usize,
        chunk: u32,
        offset: u32,
    ) -> Result<bool, AllocError>
        ensures { Defines result (symbols_parts self.old) (symbols_parts self.new)
            (label_symbol (symbols_parts self.old) name.now token chunk offset) }
    {
        let number = self.next_number()?;
        let place = Location {
            chunk,
            offset: u64::from(offset),
            symbol: Some(number),
        };
        self.define(Definition {
            name,
            file: self.file,
            token,
            meaning: Meaning::Place(chunk, offset),
            early: Some(Value::At(place)),
            bytes: None,
        })
    }

    /// The value of a statement's expression, and what it is worth where that is known already.
    /// Says whether the name was free.
    pub fn assign(
        &mut self,
        name: &'a [u8],
        token: usize,
        statement: usize,
        early: Option<Value>,
    ) -> Result<bool, AllocError>
        ensures { Defines result (symbols_parts self.old) (symbols_parts self.new)
            (assigned_symbol (symbols_parts self.old) name.now token statement early) }
    {
        self.define(Definition {
            name,
            file: self.file,
            token,
            meaning: Meaning::Assigned(statement),
            early,
            bytes: None,
        })
    }

    /// A common symbol of so many bytes, which are a chunk of their own. Says whether the name was
    /// free.
    pub fn define_common(
        &mut self,
        name: &'a [u8],
        token: usize,
        chunk: u32,
        bytes: u32,
    ) -> Result<bool, AllocError>
        ensures { Defines result (symbols_parts self.old) (symbols_parts self.new)
            (common_symbol (symbols_parts self.old) name.now token chunk bytes) }
    {
        let number = self.next_number()?;
        let place = Location {
            chunk,
            offset: 0,
            symbol: Some(number),
        };
        self.define(Definition {
            name,
            file: self.file,
            token,
            meaning: Meaning::Place(chunk, 0),
            early: Some(Value::At(place)),
            bytes: Some(bytes),
        })
    }

    /// Begins the file of a number, and gives the names that the one before wants all files to see,
    /// and its own.
    pub fn begin_file(&mut self, alloc: Global, file: u32) -> (Names<'a>, Names<'a>)
        ensures begun { symbols_parts self.new ≡ in_file file (symbols_parts self.old) }
        ensures own { names_of result.0 ≡ names_of self.old.own }
        ensures wanted { names_of result.1 ≡ names_of self.old.wanted }
    {
        self.file = file;
        let own = replace(&mut self.own, Names::new(alloc));
        let wanted = replace(&mut self.wanted, Names::new(alloc));
        (own, wanted)
    }
}
