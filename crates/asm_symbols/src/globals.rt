//! The symbols that all files see.
#![tactic(auto, unfolding(crate::proofs::Unfold::globals))]

ghost use Rattle.std.specs.Prelude.{◌≡◌, ◌<◌, ◌^◌, length, map};
ghost use Rattle.asm_symbols.specs.Names.{no_names, names_of};
ghost use Rattle.asm_symbols.specs.Definitions.{definition_parts};
ghost use Rattle.asm_symbols.specs.Globals.{Publishes, wants, is_wanted, published, symbol_named};

use crate::definitions::Definition;
use crate::names::Names;
use std::alloc::{AllocError, Global};

/// Why symbols can't be seen by all files.
#[derive(Clone, Copy, Debug, PartialEq, Eq)]
pub enum PublishFault {
    /// The symbol of this number has a name that one of another file has.
    Twice(usize),
    /// Out of memory.
    NoMemory,
}

impl From<AllocError> for PublishFault {
    ghost use Rattle.std.specs.Prelude.{◌≡◌};
    ghost use Rattle.asm_symbols.specs.declared.globals.PublishFault.TheVariants.{NoMemory};

    ghost from_gives = { λ _ fault. fault ≡ NoMemory };

    fn from(_: AllocError) -> PublishFault {
        PublishFault::NoMemory
    }
}

/// Whether a symbol's file wants all files to see it.
fn is_wanted(wanted: &[Names], symbol: &Definition) -> bool
    ensures { result ≡ is_wanted (wants wanted.now) (definition_parts symbol.now) }
{
    match wanted.get(symbol.file as usize) {
        Some(names) => names.find(symbol.name).is_some(),
        None => false,
    }
}

/// The symbols that all files see: of those whose file wants it, by the names that each file wants
/// to be seen. Fails at the first symbol whose name is taken.
pub fn publish<'a>(
    alloc: Global,
    symbols: &[Definition<'a>],
    wanted: &[Names],
) -> Result<Names<'a>, PublishFault>
    requires { length symbols.now < 2 ^ 32 }
    ensures { Publishes result
        (published (wants wanted.now) 0 no_names (map definition_parts symbols.now)) }
{
    let mut names = Names::new(alloc);
    for (number, symbol) in symbols.iter().enumerate() {
        let seen = is_wanted(wanted, symbol);
        if !seen {
            continue;
        }
        let free = names.define(symbol.name, number as u32)?;
        if !free {
            return Err(PublishFault::Twice(number));
        }
    }
    Ok(names)
}

/// The symbol that a name means in a file: its own, or else one that all files see.
pub fn symbol_named(own: &Names, seen: &Names, name: &[u8]) -> Option<u32>
    ensures { result ≡ symbol_named (names_of own.now) (names_of seen.now) name.now }
{
    match own.find(name) {
        Some(number) => Some(number),
        None => seen.find(name),
    }
}
