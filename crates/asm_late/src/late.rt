//! Questions to a program that is linked.
#![tactic(auto, unfolding(crate::proofs::Unfold::late))]

ghost use Rattle.std.specs.Prelude.{◌≡◌};
ghost use Rattle.asm_files.specs.Faults.{GivesAll};
ghost use Rattle.asm_places.specs.Capabilities.{objects_parts};
ghost use Rattle.asm_places.specs.Places.{places_parts};
ghost use Rattle.asm_late.specs.Scene.{scene_parts};
ghost use Rattle.asm_late.specs.Late.{
  entry_of,
  fault_of,
  late_parts,
  objects_of,
  operand_value,
  places_of,
  scene_in,
  symbol_named_in,
  symbol_value,
};

use crate::linked::Linked;
use crate::scene::ProgramScene;
use crate::values::{in_files, operand_fault};
use asm_chains::{LateFault, Setting, late_symbol, late_value};
use asm_files::{AssemblyFault, Program};
use asm_places::{Objects, Places};
use asm_tables::{entry_symbol, named, nodes_in};
use asm_tokens::AsmFaultKind;
use asm_values::{Location, Value};
use std::alloc::Global;

/// A program, and what it is once everything has its address.
#[derive(Clone, Copy)]
pub struct Late<'p, 'a> {
    pub program: &'p Program<'a>,
    pub linked: &'p Linked<'a>,
}

/// An entry of the capability table, by its number, and its symbol.
#[derive(Clone, Copy, Debug, PartialEq, Eq)]
pub struct Entry {
    pub symbol: u32,
    pub entry: u32,
}

impl<'p, 'a> Late<'p, 'a> {
    /// The chunks of the program, and where each begins.
    pub fn places(self) -> Places<'p>
        ensures { places_parts result ≡ places_of (late_parts self.entry) }
    {
        Places {
            chunks: self.program.made.chunks.as_slice(),
            addresses: self.linked.layout.addresses.as_slice(),
        }
    }

    /// The symbols of the program, with the bytes of each.
    pub fn objects(self) -> Objects<'p>
        ensures { objects_parts result ≡ objects_of (late_parts self.entry) }
    {
        Objects {
            places: self.places(),
            symbols: self.program.made.symbols.as_slice(),
            lengths: self.linked.lengths.as_slice(),
            reach: self.linked.reach,
        }
    }

    /// What names of its expressions mean.
    pub(crate) fn scene(self) -> ProgramScene<'p, 'a>
        ensures { scene_parts result ≡ scene_in (late_parts self.entry) }
    {
        ProgramScene {
            program: self.program,
            seen: &self.linked.seen,
            places: self.places(),
        }
    }

    /// The symbol that a name means in a file: its own, or else one that all files see.
    pub fn named(self, file: usize, name: &[u8]) -> Option<u32>
        ensures { result ≡ symbol_named_in (late_parts self.entry) file name.now }
    {
        named(self.program, &self.linked.seen, file, name)
    }

    /// A fault at the first token of an operand.
    pub fn fault_of(
        self,
        file: usize,
        statement: usize,
        operand: usize,
        kind: AsmFaultKind,
    ) -> AssemblyFault
        ensures { result ≡ fault_of (late_parts self.entry) file statement operand kind }
    {
        operand_fault(self.program, file, statement, operand, kind)
    }

    /// The value of an operand of a statement; `dot` is the place of `.`. Fails with `Expression`
    /// at an operator that has no value and at a name that is met again while it is worked out, and
    /// with `Symbol` at a name that there isn't.
    pub fn operand_value(
        self,
        alloc: Global,
        file: usize,
        statement: usize,
        operand: usize,
        dot: Location,
    ) -> Result<Value, AssemblyFault>
        ensures { GivesAll (λ value. value) result
            (operand_value (late_parts self.entry) file statement operand dot) }
    {
        let setting = Setting {
            file,
            statement,
            dot,
        };
        let scene = self.scene();
        let nodes = nodes_in(self.program, file, statement, operand);
        let values = self.linked.values.as_slice();
        in_files(
            self.program,
            late_value(alloc, &scene, values, setting, nodes),
        )
    }

    /// The value of a symbol, with the same faults.
    pub fn symbol_value(self, alloc: Global, symbol: u32) -> Result<Value, AssemblyFault>
        ensures { GivesAll (λ value. value) result
            (symbol_value (late_parts self.entry) symbol) }
    {
        let (file, at) = match self.program.made.symbols.get(symbol as usize) {
            Some(definition) => (definition.file as usize, definition.token),
            None => (0, 0),
        };
        let again = LateFault {
            file,
            kind: AsmFaultKind::Expression,
            at,
        };
        let scene = self.scene();
        let values = self.linked.values.as_slice();
        in_files(
            self.program,
            late_symbol(alloc, &scene, values, symbol as usize, again),
        )
    }

    /// The entry of the capability table that an operand asks for. Fails with `Expression` where it
    /// is more than a name, and with `Symbol` where there is none.
    pub fn entry_of(
        self,
        file: usize,
        statement: usize,
        operand: usize,
    ) -> Result<Entry, AssemblyFault>
        ensures { result ≡ entry_of (late_parts self.entry) file statement operand }
    {
        let seen = &self.linked.seen;
        let symbol = match entry_symbol(self.program, seen, file, statement, operand) {
            Ok(symbol) => symbol,
            Err(kind) => return Err(self.fault_of(file, statement, operand, kind)),
        };
        match self.linked.table.entries.get(symbol as usize).copied() {
            Some(Some(entry)) => Ok(Entry { symbol, entry }),
            _ => Err(self.fault_of(file, statement, operand, AsmFaultKind::Symbol)),
        }
    }
}
